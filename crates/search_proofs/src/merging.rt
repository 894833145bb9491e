//! Members with each literal once. A search keeps literals that stand twice, and a proof of a clause names all of its
//! literals for each of them.
ghost use Rattle.std.specs.Prelude.{◌≡◌, ◌↔◌, IsTrue, IfOk, OnOk};
ghost use Rattle.std.specs.List.{AllZip};
ghost use Rattle.search_proofs.specs.code.Repeats.{AddsOnce, AreOnce, IsMerged, IsMergedClause, Stands};

use clause_form::{AtomOf, Clause, Lit};
use fof_terms::{copy_terms, equal_term, equal_terms};
use saturation::{Member, Origin};
use std::alloc::Global;
use tptp_base::{List, Memory};
use unify_terms::Subst;

/// The members, the inferred ones with each literal once.
pub(crate) fn merged_members(alloc: Global, members: &[Member]) -> Result<List<Member>, Memory>
    ensures { IfOk result (AllZip IsMerged members.now) }
{
    let mut made = List::new(alloc);
    for member in members {
        made.push(merged_member(alloc, member)?)?;
    }
    Ok(made)
}

// The member with each literal once, if it is no input.
fn merged_member(alloc: Global, member: &Member) -> Result<Member, Memory>
    ensures { IfOk result (IsMerged member.now) }
{
    match &member.origin {
        Origin::Input(number) => {
            let clause = member.clause.copy(alloc)?;
            let origin = Origin::Input(*number);
            Ok(Member { clause, origin })
        }
        Origin::Inferred(first, second, images) => {
            let clause = merged(alloc, &member.clause)?;
            let images = copy_terms(alloc, images.images.as_slice())?;
            let origin = Origin::Inferred(*first, *second, Subst { images });
            Ok(Member { clause, origin })
        }
    }
}

// The clause with each literal once.
fn merged(alloc: Global, clause: &Clause) -> Result<Clause, Memory>
    ensures { IfOk result (IsMergedClause clause.now) }
{
    let sorts = List::from_slice(alloc, clause.sorts.as_slice())?;
    let lits = each_once(alloc, clause.lits.as_slice())?;
    Ok(Clause { sorts, lits })
}

// The literals, each once.
fn each_once(alloc: Global, lits: &[Lit]) -> Result<List<Lit>, Memory>
    ensures { IfOk result (AreOnce lits.now) }
{
    let mut made = List::new(alloc);
    for lit in lits {
        push_if_new(alloc, lit, &mut made)?;
    }
    Ok(made)
}

// Adds the literal, if it does not stand there.
fn push_if_new(alloc: Global, lit: &Lit, made: &mut List<Lit>) -> Result<(), Memory>
    ensures { OnOk result (AddsOnce made.old lit.now made.new) }
{
    if !stands_in(made.as_slice(), lit) {
        made.push(lit.copy(alloc)?)?;
    }
    Ok(())
}

// Whether the literal stands among these.
fn stands_in(lits: &[Lit], lit: &Lit) -> bool
    ensures { IsTrue result ↔ Stands lits.now lit.now }
{
    for i in 0..lits.len() {
        if equal_lit(&lits[i], lit) {
            return true;
        }
    }
    false
}

// Whether the literals are equal.
fn equal_lit(lit: &Lit, other: &Lit) -> bool
    ensures { IsTrue result ↔ (lit.now ≡ other.now) }
{
    lit.positive == other.positive && equal_atom(&lit.atom, &other.atom)
}

// Whether the atoms are equal.
fn equal_atom(atom: &AtomOf, other: &AtomOf) -> bool
    ensures { IsTrue result ↔ (atom.now ≡ other.now) }
{
    match (atom, other) {
        (AtomOf::Pred(symbol, args), AtomOf::Pred(number, terms)) => {
            symbol == number && equal_terms(args.as_slice(), terms.as_slice())
        }
        (AtomOf::Eq(left, right), AtomOf::Eq(first, second)) => {
            equal_term(left, first) && equal_term(right, second)
        }
        (AtomOf::True, AtomOf::True) => true,
        (AtomOf::False, AtomOf::False) => true,
        _ => false,
    }
}
