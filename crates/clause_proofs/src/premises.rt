//! Instances of parents' clauses.
ghost use Rattle.std.specs.Prelude.{◌≡◌, ◌+◌, ◌≤◌, length, map, take, drop, reverse, IfOk};
ghost use Rattle.clause_form.specs.Covers.{at_terms, lit_image};
ghost use Rattle.clause_form.specs.Images.{image};
ghost use Rattle.unify_terms.specs.Substitution.{image_at};
ghost use Rattle.clause_proofs.specs.Premises.{IsPremiseBy, IsPremiseOf};

use crate::nodes::line;
use crate::opening::Opened;
use clause_form::{AtomOf, Lit};
use derive_kit::{Part, instance_of};
use fof_terms::{Term, copy_terms};
use std::alloc::Global;
use tptp_base::{List, Memory};
use unify_terms::{Subst, apply};

/// An instance of a clause, over the variables in reach, and a part that shows it.
#[derive(Drop)]
pub struct Premise {
    pub is_or: bool,
    pub lits: List<Lit>,
    pub part: Part,
}

/// So many images, from that of the variable `from` on.
pub fn some_images(alloc: Global, subst: &Subst, from: usize, count: usize) -> Result<Subst, Memory>
    requires { from + count ≤ length subst.now }
    ensures { IfOk result (λ images. images ≡ take count (drop from subst.now)) }
{
    let images = subst.images.as_slice();
    let images = copy_terms(alloc, &images[from..from + count])?;
    Ok(Subst { images })
}

/// The images of the terms.
pub fn images_of(alloc: Global, subst: &Subst, terms: &[Term]) -> Result<List<Term>, Memory>
    ensures { IfOk result (λ images. images ≡ map (image (image_at subst.now)) terms.now) }
{
    let mut images = List::new(alloc);
    for term in terms {
        images.push(image_of(alloc, subst, term)?)?;
    }
    Ok(images)
}

// The image of the term.
fn image_of(alloc: Global, subst: &Subst, term: &Term) -> Result<Term, Memory>
    ensures { IfOk result (λ made. made ≡ image (image_at subst.now) term.now) }
{
    apply(alloc, subst, term)
}

// The image of the atom.
fn image_of_atom(alloc: Global, subst: &Subst, atom: &AtomOf) -> Result<AtomOf, Memory>
    ensures { IfOk result (λ made. made ≡ at_terms (image (image_at subst.now)) atom.now) }
{
    match atom {
        AtomOf::Pred(symbol, args) => Ok(AtomOf::Pred(
            *symbol,
            images_of(alloc, subst, args.as_slice())?,
        )),
        AtomOf::Eq(left, right) => {
            let left = image_of(alloc, subst, left)?;
            Ok(AtomOf::Eq(left, image_of(alloc, subst, right)?))
        }
        AtomOf::True => Ok(AtomOf::True),
        AtomOf::False => Ok(AtomOf::False),
    }
}

/// The images of the literals.
pub fn images_of_lits(alloc: Global, subst: &Subst, lits: &[Lit]) -> Result<List<Lit>, Memory>
    ensures { IfOk result (λ made. made ≡ map (lit_image (image_at subst.now)) lits.now) }
{
    let mut made = List::new(alloc);
    for lit in lits {
        let atom = image_of_atom(alloc, subst, &lit.atom)?;
        made.push(Lit {
            positive: lit.positive,
            atom,
        })?;
    }
    Ok(made)
}

// The terms, the last one first.
fn reversed(alloc: Global, terms: List<Term>) -> Result<List<Term>, Memory>
    ensures { IfOk result (λ list. list ≡ reverse terms) }
{
    let mut list = List::new(alloc);
    let mut left = terms;
    while let Some(last) = left.pop() {
        list.push(last)?;
    }
    Ok(list)
}

/// The instance of the clause under the images of its variables, by a part that shows a formula that has it.
pub fn instance_of_part(
    alloc: Global,
    own: Part,
    opened: &Opened,
    subst: Subst,
) -> Result<Premise, Memory>
    ensures { IfOk result (IsPremiseBy own opened.now subst) }
{
    let lits = images_of_lits(alloc, &subst, opened.clause.lits.as_slice())?;
    let terms = reversed(alloc, subst.images)?;
    let part = instance_of(alloc, own, terms)?;
    Ok(Premise {
        is_or: opened.is_or,
        lits,
        part,
    })
}

/// The instance of the clause of that number under the images of its variables.
pub fn instance_by(
    alloc: Global,
    number: u64,
    opened: &Opened,
    subst: Subst,
) -> Result<Premise, Memory>
    ensures { IfOk result (IsPremiseOf number opened.now subst) }
{
    instance_of_part(alloc, line(alloc, number)?, opened, subst)
}
