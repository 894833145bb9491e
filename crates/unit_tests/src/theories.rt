// Theories and their signatures.
use crate::said::is;
use fof_terms::{Kind, Signature};
use kernel::{Entry, Proof};
use proof_check::Theory;
use proof_log::read_log;
use std::alloc::{AllocError, Global};
use tptp_base::{Boxed, List, Memory};

/// A theory without formulas, over the sort of individuals alone.
pub fn start(alloc: Global) -> Result<Theory, Memory> {
    Theory::start(alloc, Signature::new(alloc)?, List::new(alloc))
}

/// Admits the entries of a log.
pub fn admit_log(alloc: Global, theory: &mut Theory, log: &str) -> Option<()> {
    let entries = read_log(alloc, log.as_bytes()).ok()?;
    admit_all(theory, entries.as_slice())
}

fn admit_all(theory: &mut Theory, entries: &[Entry]) -> Option<()> {
    for entry in entries {
        theory.admit(entry).ok()?;
    }
    Some(())
}

#[test]
fn a_refused_entry_adds_nothing(rt: HostRuntime) {
    is(&rt, refused(rt.alloc()), "refused: 1 2 false");
}

// Whether an entry is refused, the formulas and sorts that there are then, and whether falsehood is among them.
fn refused(alloc: Global) -> Option<String> {
    let mut theory = start(alloc).ok()?;
    refused_by(alloc, &mut theory)
}

fn refused_by(alloc: Global, theory: &mut Theory) -> Option<String> {
    // The conjunction without members is truth.
    admit_log(alloc, theory, "tptp-log 1\nD s 's'\nL andi 0\n")?;
    let entry = line(alloc).ok()?;
    let ending = match theory.admit(entry.get()) {
        Ok(()) => "taken",
        Err(_) => "refused",
    };
    counts(alloc, ending, theory).ok()
}

fn line(alloc: Global) -> Result<Boxed<Entry>, AllocError> {
    Boxed::new(alloc, Entry::Lemma(Proof::Line(1)))
}

fn counts(alloc: Global, ending: &str, theory: &Theory) -> Result<String, AllocError> {
    let formulas = theory.len();
    let sorts = theory.signature().sort_count();
    let refuted = theory.refuted();
    format!(in alloc; "{ending}: {formulas} {sorts} {refuted}")
}

// Of symbols with one name the first with that kind and arity is found.
#[test]
fn symbols_are_found_by_name_kind_and_arity(rt: HostRuntime) {
    is(&rt, symbols(rt.alloc()), "0 1 2 4 none none ");
}

const SYMBOLS: &str = "tptp-log 1
D f 'f' 1 0 0
D p 'f' 1 0
D f 'f' 2 0 0 0
D f 'f' 1 0 0
D f 'g' 1 0 0
D p 'f' 1 0
";

fn symbols(alloc: Global) -> Option<String> {
    let mut theory = start(alloc).ok()?;
    admit_log(alloc, &mut theory, SYMBOLS)?;
    symbols_in(alloc, theory.signature()).ok()
}

fn symbols_in(alloc: Global, signature: &Signature) -> Result<String, AllocError> {
    let mut out = String::new(alloc);
    for (name, kind, arity) in [
        ("f", Kind::Function, 1),
        ("f", Kind::Predicate, 1),
        ("f", Kind::Function, 2),
        ("g", Kind::Function, 1),
        ("f", Kind::Predicate, 2),
        ("h", Kind::Function, 1),
    ] {
        push_number(&mut out, signature.find(name.as_bytes(), kind, arity))?;
    }
    Ok(out)
}

fn push_number(out: &mut String, number: Option<u32>) -> Result<(), AllocError> {
    match number {
        Some(number) => write!(out, "{number} "),
        None => out.push_str("none "),
    }
}

#[test]
fn sorts_are_found_by_name(rt: HostRuntime) {
    is(&rt, sorts(rt.alloc()), "1 2 4 none ");
}

fn sorts(alloc: Global) -> Option<String> {
    let mut theory = start(alloc).ok()?;
    let log = "tptp-log 1\nD s 's'\nD s 't'\nD s 's'\nD s '$i'\n";
    admit_log(alloc, &mut theory, log)?;
    sorts_in(alloc, theory.signature()).ok()
}

fn sorts_in(alloc: Global, signature: &Signature) -> Result<String, AllocError> {
    let mut out = String::new(alloc);
    for name in ["s", "t", "$i", "u"] {
        push_number(&mut out, signature.find_sort(name.as_bytes()))?;
    }
    Ok(out)
}
