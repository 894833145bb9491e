//! Masks of clauses, by which most clauses that do not subsume another are told at once.
ghost use Rattle.std.specs.Prelude.{◌≡◌, ◌<◌, ◌^◌, ◌↔◌, IsTrue};
ghost use Rattle.subsumption.specs.Mask.{IsWithin as HasNoMore, head_number, lit_bit, mask};

use clause_form::{AtomOf, Clause, Lit};

// A number for the head of an atom.
fn number_of(atom: &AtomOf) -> u64
    ensures value { result ≡ head_number atom.now }
    ensures small { result < 2 ^ 33 }
{
    match atom {
        AtomOf::True => 0,
        AtomOf::False => 1,
        AtomOf::Eq(_, _) => 2,
        AtomOf::Pred(predicate, _) => *predicate as u64 + 3,
    }
}

// The bit of a literal.
fn bit_of(lit: &Lit) -> u64
    ensures { result ≡ lit_bit lit.now }
{
    let label = number_of(&lit.atom) * 2 + lit.positive as u64;
    1 << (label % 64)
}

/// The mask of the clause.
pub fn mask_of(clause: &Clause) -> u64
    ensures { result ≡ mask clause.now.lits }
{
    let mut bits: u64 = 0;
    for lit in clause.lits.as_slice() {
        bits |= bit_of(lit);
    }
    bits
}

/// Whether the second mask has each bit of the first. Where it lacks one, no clause of the first mask subsumes one of
/// the second.
pub fn is_within(bits: u64, others: u64) -> bool
    ensures { IsTrue result ↔ HasNoMore bits others }
{
    bits | others == others
}
