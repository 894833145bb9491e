// The numbers of the functions of a derivation.
ghost use Rattle.std.specs.Prelude.{◌≡◌, ◌+◌, ◌++◌, ◌<◌, ◌^◌, length, IfOk, OnOk};
ghost use Rattle.std.specs.List.{range_with_len};
ghost use Rattle.given_parts.specs.Numbers.{firsts_from, next_behind as number_behind, numbers_from};
ghost use Rattle.given_parts.specs.Parts.{ex_count_of, ex_counts};

use crate::part::Part;
use fof_terms::SymId;
use std::alloc::Global;
use tptp_base::{List, Memory};

/// The numbers of functions in place of existential quantifiers.
#[derive(Drop)]
pub struct FunctionNumbers {
    /// For each part that of its first function.
    pub firsts: List<SymId>,
    /// For each existential quantifier of all parts that of its function.
    pub all: List<SymId>,
}

/// The numbers of the functions of the parts that are used, from `first` on.
pub fn numbers_of(
    alloc: Global,
    parts: &[Part],
    used: &[bool],
    first: SymId,
) -> Result<FunctionNumbers, Memory>
    requires count { length used.now ≡ length parts.now }
    requires room { first + ex_counts parts.now < 2 ^ 32 }
    ensures firsts { IfOk result (λ numbers. numbers.firsts ≡ firsts_from first used.now parts.now) }
    ensures all { IfOk result (λ numbers. numbers.all ≡ numbers_from first used.now parts.now) }
{
    let mut firsts = List::new(alloc);
    let mut all = List::new(alloc);
    let mut next = first;
    for at in 0..parts.len() {
        let part = &parts[at];
        firsts.push(next)?;
        push_numbers(next, part, &mut all)?;
        next = next_behind(next, used[at], part);
    }
    Ok(FunctionNumbers { firsts, all })
}

// Adds a number for each existential quantifier of the part.
fn push_numbers(first: SymId, part: &Part, numbers: &mut List<SymId>) -> Result<(), Memory>
    requires { first + ex_count_of part.now < 2 ^ 32 }
    ensures { OnOk result (numbers.new ≡ numbers.old ++ range_with_len first (ex_count_of part.now)) }
{
    for number in 0..part.existentials.len() {
        numbers.push(first + number as u32)?;
    }
    Ok(())
}

// The number behind those of the part, if it is used.
fn next_behind(first: SymId, is_used: bool, part: &Part) -> SymId
    requires { first + ex_count_of part.now < 2 ^ 32 }
    ensures { result ≡ number_behind first is_used part.now }
{
    if !is_used {
        return first;
    }
    first + part.existentials.len() as u32
}
