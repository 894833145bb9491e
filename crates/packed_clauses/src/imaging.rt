//! Instances of literals and of terms as bytes. They are not made before.
ghost use Rattle.std.specs.Prelude.{◌≡◌, ◌++◌, map, OnOk};
ghost use Rattle.clause_form.specs.Covers.{at_terms, lit_image};
ghost use Rattle.clause_form.specs.Images.{image};
ghost use Rattle.packed_clauses.specs.Instances.{given};
ghost use Rattle.packed_clauses.specs.code.Spelling.{spelled_atom, spelled_lits, spelled_term, spelled_terms};

use crate::piece::Kind;
use crate::writing::{write_piece, write_term};
use clause_form::{AtomOf, Lit};
use fof_terms::Term;
use tptp_base::{Memory, Text};

/// Writes the instances, by the last images, of the instances of the literals.
pub fn write_instances(
    lits: &[Lit],
    images: &[Term],
    last: &[Term],
    bytes: &mut Text,
) -> Result<(), Memory>
    ensures { OnOk result (bytes.new ≡ bytes.old
        ++ spelled_lits (map (lit_image (given last.now)) (map (lit_image (given images.now)) lits.now))) }
{
    for lit in lits {
        write_instance(lit.positive, &lit.atom, images, last, bytes)?;
    }
    Ok(())
}

// Writes that of the atom, as one of a literal with this sign.
fn write_instance(
    positive: bool,
    atom: &AtomOf,
    images: &[Term],
    last: &[Term],
    bytes: &mut Text,
) -> Result<(), Memory>
    ensures { OnOk result (bytes.new ≡ bytes.old ++ spelled_atom positive
        (at_terms (image (given last.now)) (at_terms (image (given images.now)) atom.now))) }
{
    match atom {
        AtomOf::Pred(symbol, args) => {
            write_all_twice(args.as_slice(), images, last, bytes)?;
            write_piece(Kind::Predicate(positive), *symbol, bytes)
        }
        AtomOf::Eq(left, right) => {
            write_twice(left, images, last, bytes)?;
            write_twice(right, images, last, bytes)?;
            write_piece(Kind::Equation(positive), 0, bytes)
        }
        AtomOf::True => write_piece(Kind::Truth(positive), 0, bytes),
        AtomOf::False => write_piece(Kind::Falsehood(positive), 0, bytes),
    }
}

// Writes the image, by the last images, of the image of the term.
#[tactic(auto, using(crate::proofs::Spelled::spelled_equations, clause_form::proofs::ImagesFacts::image_equations))]
#[cycle(write_twice)]
fn write_twice(term: &Term, images: &[Term], last: &[Term], bytes: &mut Text) -> Result<(), Memory>
    ensures { OnOk result (bytes.new
        ≡ bytes.old ++ spelled_term (image (given last.now) (image (given images.now) term.now))) }
{
    match term {
        Term::Var(variable) => match images.get(*variable as usize) {
            Some(image) => write_image(image, last, bytes),
            None => write_image(term, last, bytes),
        },
        Term::App(symbol, args) => {
            write_piece(Kind::Open, *symbol, bytes)?;
            write_all_twice(args.as_slice(), images, last, bytes)?;
            write_piece(Kind::Close, 0, bytes)
        }
    }
}

// Writes those of the terms.
#[cycle(write_twice)]
fn write_all_twice(
    terms: &[Term],
    images: &[Term],
    last: &[Term],
    bytes: &mut Text,
) -> Result<(), Memory>
    ensures { OnOk result (bytes.new ≡ bytes.old
        ++ spelled_terms (map (image (given last.now)) (map (image (given images.now)) terms.now))) }
{
    for term in terms {
        write_twice(term, images, last, bytes)?;
    }
    Ok(())
}

// Writes the image of the term.
#[tactic(auto, using(crate::proofs::Spelled::spelled_equations, clause_form::proofs::ImagesFacts::image_equations))]
#[cycle(write_image)]
fn write_image(term: &Term, images: &[Term], bytes: &mut Text) -> Result<(), Memory>
    ensures { OnOk result (bytes.new ≡ bytes.old ++ spelled_term (image (given images.now) term.now)) }
{
    match term {
        Term::Var(variable) => match images.get(*variable as usize) {
            Some(image) => write_term(image, bytes),
            None => write_piece(Kind::Variable, *variable, bytes),
        },
        Term::App(symbol, args) => {
            write_piece(Kind::Open, *symbol, bytes)?;
            write_images(args.as_slice(), images, bytes)?;
            write_piece(Kind::Close, 0, bytes)
        }
    }
}

/// Writes the images of the terms.
#[cycle(write_image)]
pub fn write_images(terms: &[Term], images: &[Term], bytes: &mut Text) -> Result<(), Memory>
    ensures { OnOk result (bytes.new ≡ bytes.old ++ spelled_terms (map (image (given images.now)) terms.now)) }
{
    for term in terms {
        write_image(term, images, bytes)?;
    }
    Ok(())
}
