ghost use Rattle.std.specs.Prelude.{◌≡◌, IfOk, IfSome};
ghost use Rattle.std.specs.Option.{option_map};
ghost use Rattle.fof_terms.specs.declared.form.Form.{Or};
ghost use Rattle.clause_form.specs.ClauseView.{open_clause as open_of, alone_lit, within as within_of};
ghost use Rattle.clause_form.specs.Paths.{is_plain as plain_atom, plain as plain_of, all_beside as beside_of, reached};
ghost use Rattle.clause_form.specs.Reached.{Suits};
ghost use Rattle.clause_form.specs.Room.{AreOver};
ghost use Rattle.clause_form.specs.Found.{IsRoomy, AreFound};
ghost use Rattle.clause_form.specs.code.Found.{IsFound};

use crate::beside::all_beside;
use crate::clause::{AtomOf, Clause, Lit};
use crate::path::Path;
use crate::view::as_lit;
use fof_terms::{Form, SortId};
use std::alloc::Global;
use tptp_base::{List, Memory};

/// The clause that the path reaches in the formula. None exactly where the path does not fit the formula.
pub fn clause_of_path(alloc: Global, form: &Form, path: &Path) -> Result<Option<Clause>, Memory>
    requires { IsRoomy form.now }
    ensures found { IfOk result (λ clause. clause ≡ reached path.now form.now) }
    ensures suits { IfOk result (λ clause. IfSome clause (Suits form.now)) }
{
    reach(alloc, form, path)
}

/// The clauses that the paths reach in the formulas at their places. None exactly where one does not fit, or their
/// numbers differ.
pub fn clauses_of_paths(
    alloc: Global,
    forms: &[Form],
    paths: &[Path],
) -> Result<Option<List<Clause>>, Memory>
    requires { IsRoomy (Or forms.now) }
    ensures { IfOk result (λ clauses. AreFound paths.now forms.now clauses) }
{
    reach_each(alloc, forms, paths)
}

// The clause that the path reaches.
#[cycle(reach)]
fn reach(alloc: Global, form: &Form, path: &Path) -> Result<Option<Clause>, Memory>
    requires { IsRoomy form.now }
    ensures { IfOk result (λ clause. IsFound path.now form.now clause) }
{
    match path {
        Path::Leaf => {
            let lit = as_lit(alloc, form)?;
            open_clause(alloc, plain_lit(lit))
        }
        Path::Pick(number, rest) => match form {
            Form::And(members) => {
                let place = *number as usize;
                let members = members.as_slice();
                if place >= members.len() {
                    return Ok(None);
                }
                reach(alloc, &members[place], rest.get())
            }
            _ => Ok(None),
        },
        Path::Each(ways) => match form {
            Form::Or(members) => {
                let clauses = reach_each(alloc, members.as_slice(), ways.as_slice())?;
                joined(alloc, clauses)
            }
            _ => Ok(None),
        },
        Path::Under(rest) => match form {
            Form::All(sort, body) => {
                let clause = reach(alloc, body.get(), rest.get())?;
                within(alloc, *sort, clause)
            }
            _ => Ok(None),
        },
    }
}

// The clauses that the paths reach.
#[cycle(reach)]
fn reach_each(alloc: Global, forms: &[Form], paths: &[Path]) -> Result<Option<List<Clause>>, Memory>
    requires { IsRoomy (Or forms.now) }
    ensures { IfOk result (λ clauses. AreFound paths.now forms.now clauses) }
{
    if forms.len() != paths.len() {
        return Ok(None);
    }
    let mut clauses = List::new(alloc);
    for number in 0..forms.len() {
        match reach(alloc, &forms[number], &paths[number])? {
            Some(clause) => clauses.push(clause)?,
            None => return Ok(None),
        }
    }
    Ok(Some(clauses))
}

// Whether it is an atom or an equation.
fn is_plain(atom: &AtomOf) -> bool
    ensures { result ≡ plain_atom atom.now }
{
    match atom {
        AtomOf::Pred(_, _) => true,
        AtomOf::Eq(_, _) => true,
        AtomOf::True => false,
        AtomOf::False => false,
    }
}

// The literal, where it is not one of truth or falsehood.
fn plain_lit(lit: Option<Lit>) -> Option<Lit>
    ensures { result ≡ plain_of lit }
{
    match lit {
        Some(lit) => { if is_plain(&lit.atom) { Some(lit) } else { None } }
        None => None,
    }
}

// The literal alone as a clause.
fn open_clause(alloc: Global, lit: Option<Lit>) -> Result<Option<Clause>, Memory>
    ensures { IfOk result (λ clause. clause ≡ option_map open_of (option_map alone_lit lit)) }
{
    match lit {
        Some(lit) => {
            let mut lits = List::new(alloc);
            lits.push(lit)?;
            Ok(Some(Clause {
                sorts: List::new(alloc),
                lits,
            }))
        }
        None => Ok(None),
    }
}

// The clause with one variable more, the outermost.
fn within(alloc: Global, sort: SortId, clause: Option<Clause>) -> Result<Option<Clause>, Memory>
    ensures { IfOk result (λ made. made ≡ option_map (within_of sort) clause) }
{
    match clause {
        Some(clause) => {
            let mut sorts = List::new(alloc);
            sorts.push(sort)?;
            sorts.append(clause.sorts)?;
            Ok(Some(Clause {
                sorts,
                lits: clause.lits,
            }))
        }
        None => Ok(None),
    }
}

// The clauses beside each other.
fn joined(alloc: Global, clauses: Option<List<Clause>>) -> Result<Option<Clause>, Memory>
    requires { IfSome clauses AreOver }
    ensures { IfOk result (λ whole. whole ≡ option_map beside_of clauses) }
{
    match clauses {
        Some(clauses) => Ok(Some(all_beside(alloc, clauses.as_slice())?)),
        None => Ok(None),
    }
}
