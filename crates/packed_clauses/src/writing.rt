//! Terms and clauses as bytes.
ghost use Rattle.std.specs.Prelude.{◌≡◌, ◌<◌, ◌++◌, OnOk};
ghost use Rattle.packed_clauses.specs.code.Spelling.{digits, two_digits, five_digits, spelled_atom, spelled_clause, spelled_lits, spelled_piece};
ghost use Rattle.packed_clauses.specs.code.Spelling.{spelled_sorts, spelled_term, spelled_terms};

use crate::piece::{Kind, code_of};
use clause_form::{AtomOf, Clause, Lit};
use fof_terms::{SortId, Term};
use tptp_base::{Memory, Text};

/// Writes the clause.
pub fn write_clause(clause: &Clause, bytes: &mut Text) -> Result<(), Memory>
    ensures { OnOk result (bytes.new ≡ bytes.old ++ spelled_clause clause.now) }
{
    write_sorts(clause.sorts.as_slice(), bytes)?;
    write_lits(clause.lits.as_slice(), bytes)
}

/// Writes the sorts of variables.
pub fn write_sorts(sorts: &[SortId], bytes: &mut Text) -> Result<(), Memory>
    ensures { OnOk result (bytes.new ≡ bytes.old ++ spelled_sorts sorts.now) }
{
    for sort in sorts {
        write_piece(Kind::Sort, *sort, bytes)?;
    }
    Ok(())
}

// Writes the literals.
fn write_lits(lits: &[Lit], bytes: &mut Text) -> Result<(), Memory>
    ensures { OnOk result (bytes.new ≡ bytes.old ++ spelled_lits lits.now) }
{
    for lit in lits {
        write_atom(lit.positive, &lit.atom, bytes)?;
    }
    Ok(())
}

// Writes the atom, as one of a literal with this sign.
fn write_atom(positive: bool, atom: &AtomOf, bytes: &mut Text) -> Result<(), Memory>
    ensures { OnOk result (bytes.new ≡ bytes.old ++ spelled_atom positive atom.now) }
{
    match atom {
        AtomOf::Pred(symbol, args) => {
            write_terms(args.as_slice(), bytes)?;
            write_piece(Kind::Predicate(positive), *symbol, bytes)
        }
        AtomOf::Eq(left, right) => {
            write_term(left, bytes)?;
            write_term(right, bytes)?;
            write_piece(Kind::Equation(positive), 0, bytes)
        }
        AtomOf::True => write_piece(Kind::Truth(positive), 0, bytes),
        AtomOf::False => write_piece(Kind::Falsehood(positive), 0, bytes),
    }
}

/// Writes the term.
#[tactic(auto, using(crate::proofs::Spelled::spelled_equations))]
#[cycle(write_term)]
pub fn write_term(term: &Term, bytes: &mut Text) -> Result<(), Memory>
    ensures { OnOk result (bytes.new ≡ bytes.old ++ spelled_term term.now) }
{
    match term {
        Term::Var(variable) => write_piece(Kind::Variable, *variable, bytes),
        Term::App(symbol, args) => {
            write_piece(Kind::Open, *symbol, bytes)?;
            write_terms(args.as_slice(), bytes)?;
            write_piece(Kind::Close, 0, bytes)
        }
    }
}

/// Writes the terms.
#[cycle(write_term)]
pub fn write_terms(terms: &[Term], bytes: &mut Text) -> Result<(), Memory>
    ensures { OnOk result (bytes.new ≡ bytes.old ++ spelled_terms terms.now) }
{
    for term in terms {
        write_term(term, bytes)?;
    }
    Ok(())
}

/// Writes the piece: its kind, and its number.
pub fn write_piece(kind: Kind, number: u32, bytes: &mut Text) -> Result<(), Memory>
    ensures { OnOk result (bytes.new ≡ bytes.old ++ spelled_piece kind number) }
{
    bytes.push(code_of(kind))?;
    write_number(number, bytes)
}

// Writes the number by its digits at base 128, the greatest first. All but the last are written with 128 more.
fn write_number(number: u32, bytes: &mut Text) -> Result<(), Memory>
    ensures { OnOk result (bytes.new ≡ bytes.old ++ digits number) }
{
    if number < 128 {
        bytes.push(number as u8)?;
        return Ok(());
    }
    if number < 16384 {
        return write_two(number, bytes);
    }
    write_five(number, bytes)
}

// Writes two digits.
fn write_two(number: u32, bytes: &mut Text) -> Result<(), Memory>
    requires { number < 16384 }
    ensures { OnOk result (bytes.new ≡ bytes.old ++ two_digits number) }
{
    bytes.push(128 + (number / 128) as u8)?;
    bytes.push((number % 128) as u8)?;
    Ok(())
}

// Writes five digits.
fn write_five(number: u32, bytes: &mut Text) -> Result<(), Memory>
    ensures { OnOk result (bytes.new ≡ bytes.old ++ five_digits number) }
{
    let second = number / 128;
    let third = second / 128;
    let fourth = third / 128;
    bytes.push(128 + (fourth / 128) as u8)?;
    bytes.push(128 + (fourth % 128) as u8)?;
    bytes.push(128 + (third % 128) as u8)?;
    bytes.push(128 + (second % 128) as u8)?;
    bytes.push((number % 128) as u8)?;
    Ok(())
}
