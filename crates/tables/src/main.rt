//! Tries tables: files of lines, each a call of the toolchain and the answer that is wanted of it, for calls whose
//! answers no run of the program shows. The words name the files. What differs is printed, wanted beside found, and for
//! each file how many lines there are and how many differ. The status is 1 where any differs, or where a file has no
//! lines.
#![tactic(auto)]

mod calls;
mod clauses;
mod forms;
mod graphs;
mod kits;
mod line;
mod pairs;
mod pieces;
mod saturating;
mod scene;
mod searches;
mod shown;
mod steps;
mod table;
mod texts;
mod tokens;
mod unifiers;
mod wanted;

use anyhow::Result;
use std::process::ExitCode;
use std::rt::{Env, Files};
use std::{env, fs};
use table::Table;

fn main(rt: HostRuntime) -> Result<ExitCode> {
    if try_all(&rt)? {
        Ok(ExitCode::SUCCESS)
    } else {
        Ok(ExitCode::FAILURE)
    }
}

// Tries the tables that the words behind the program's name say, and tells whether nothing differs.
fn try_all<R: Env + Files + Print + AllocGlobal>(rt: &R) -> Result<bool> {
    let mut is_right = true;
    for name in env::args(rt)?.skip(1) {
        is_right = try_file(rt, name.as_str())? && is_right;
    }
    Ok(is_right)
}

fn try_file<R: Files + Print + AllocGlobal>(rt: &R, name: &str) -> Result<bool> {
    let text = fs::read_to_string(rt, name)?;
    let table = Table::tried(rt.alloc(), name, text.as_str())?;
    print(rt, &table)
}

fn print<R: Print>(rt: &R, table: &Table<'_>) -> Result<bool> {
    let Table {
        name,
        lines,
        differ,
        ..
    } = table;
    println!(rt; "{}{name}: {lines} lines, {differ} differ", table.said)?;
    Ok(table.is_right())
}
