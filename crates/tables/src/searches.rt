// The order of terms and literals, keys, and clauses that subsume others.
ghost use Rattle.superpose.specs.Drafts.{IsClause};

use crate::forms::{Sides, sides_of};
use crate::shown::{or_none, push_numbers};
use clause_form::{AtomOf, Clause, Lit, is_trivial};
use clause_index::{BlindIndex, Index, Partners, do_clash, keys_of};
use clause_order::{Compare, clause_weight_of, eligible, kbo_compare, sides_not_less};
use fof_terms::{Form, Signature, Term, copy_terms};
use std::alloc::{AllocError, Global};
use subsumption::subsumes;
use superpose::is_clause;
use tptp_base::Memory;

/// The answer of a call on an equation:
///
/// - `order`: how its left side compares with the right one
/// - `sides`: the sides that aren't less than the other
/// - `clash`: whether the keys of the sides clash
pub fn of_sides(call: &str, form: &Form) -> Option<&'static str> {
    let sides = sides_of(form)?;
    match call {
        "order" => Some(compared(sides)),
        "sides" => Some(not_less(sides)),
        "clash" => Some(yes_or_no(do_clash(&keys_of(sides.left), &keys_of(sides.right)))),
        _ => None,
    }
}

fn compared(sides: Sides<'_>) -> &'static str {
    match kbo_compare(sides.left, sides.right) {
        Compare::Less => "less",
        Compare::Equal => "equal",
        Compare::Greater => "greater",
        Compare::Apart => "apart",
    }
}

fn not_less(sides: Sides<'_>) -> &'static str {
    let sides = sides_not_less(sides.left, sides.right);
    match (sides.left, sides.right) {
        (true, true) => "both",
        (true, false) => "left",
        (false, true) => "right",
        (false, false) => "none",
    }
}

fn yes_or_no(is_so: bool) -> &'static str {
    if is_so { "yes" } else { "no" }
}

/// The answer of a call on a clause:
///
/// - `literals`, `weighs`: how many literals it has, and what it weighs
/// - `trivial`: whether it is trivial
/// - `eligible`: the numbers of its eligible literals
pub fn of_clause(alloc: Global, call: &str, clause: &Clause) -> Option<String> {
    match call {
        "literals" => clause.lits.len().to_string(alloc).ok(),
        "weighs" => clause_weight_of(clause).to_string(alloc).ok(),
        "trivial" => is_trivial(clause).to_string(alloc).ok(),
        "eligible" => eligible_places(alloc, clause).ok(),
        _ => None,
    }
}

// The numbers of the eligible literals, or `none`. A number past the last one is asked for as well.
fn eligible_places(alloc: Global, clause: &Clause) -> Result<String, AllocError> {
    let mut out = String::new(alloc);
    push_eligible(&mut out, clause)?;
    or_none(out)
}

fn push_eligible(out: &mut String, clause: &Clause) -> Result<(), AllocError> {
    let count = clause.lits.len() as u64;
    for place in 0..u32::MAX {
        if eligible(clause, place) {
            write!(out, "{place} ")?;
        }
        if u64::from(place) >= count {
            break;
        }
    }
    Ok(())
}

/// The answer of a call on two clauses:
///
/// - `partners`, `blind`: the numbers of the first one's literals that an index of them tells for the atom and sign of
///   the first literal of the other
/// - `subsumes`: whether the first one subsumes the other
pub fn of_clauses(
    alloc: Global,
    signature: &Signature,
    call: &str,
    (clause, other): (&Clause, &Clause),
) -> Option<String> {
    match call {
        "partners" => partners(alloc, &mut Index::new(alloc), clause, other),
        "blind" => partners(alloc, &mut BlindIndex::new(), clause, other),
        "subsumes" => subsumed(alloc, signature, clause, other),
        _ => None,
    }
}

// The places that the index tells for the first literal of the other clause, once it has those of the clause.
fn partners<I: Partners>(
    alloc: Global,
    index: &mut I,
    clause: &Clause,
    other: &Clause,
) -> Option<String> {
    let mut place = 0u32;
    for lit in clause.lits.as_slice() {
        add(alloc, index, place, lit)?;
        place = place.saturating_add(1);
    }
    asked(alloc, index, other.lits.get(0)?)
}

fn add<I: Partners>(alloc: Global, index: &mut I, place: u32, lit: &Lit) -> Option<()> {
    let term = term_of(alloc, lit)?;
    index.add(place, lit.positive, &term).ok()
}

fn asked<I: Partners>(alloc: Global, index: &mut I, lit: &Lit) -> Option<String> {
    let term = term_of(alloc, lit)?;
    let places = index.candidates(alloc, lit.positive, &term).ok()?;
    listed(alloc, places.as_slice()).ok()
}

fn listed(alloc: Global, places: &[u32]) -> Result<String, AllocError> {
    let mut out = String::new(alloc);
    push_numbers(&mut out, places)?;
    or_none(out)
}

// The atom as a term with the predicate at its head.
fn term_of(alloc: Global, lit: &Lit) -> Option<Term> {
    match &lit.atom {
        AtomOf::Pred(symbol, args) => {
            Some(Term::App(*symbol, copy_terms(alloc, args.as_slice()).ok()?))
        }
        _ => None,
    }
}

fn subsumed(
    alloc: Global,
    signature: &Signature,
    member: &Clause,
    clause: &Clause,
) -> Option<String> {
    if !is_clause(signature, member) || !is_clause(signature, clause) {
        return None;
    }
    let word = yes_or_no(is_subsumed(alloc, signature, member, clause).ok()?);
    String::from_str(alloc, word).ok()
}

fn is_subsumed(
    alloc: Global,
    signature: &Signature,
    member: &Clause,
    clause: &Clause,
) -> Result<bool, Memory>
    requires member { IsClause signature.now member.now }
    requires clause { IsClause signature.now clause.now }
{
    subsumes(alloc, signature, member, clause)
}
