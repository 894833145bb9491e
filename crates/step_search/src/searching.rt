ghost use Rattle.std.specs.Prelude.{◌≡◌, false, length, IfOk};
ghost use Rattle.clause_form.specs.Paths.{forms_of};
ghost use Rattle.clause_rules.specs.Steps.{AreReady, IsReady};
ghost use Rattle.derive_kit.specs.Derived.{AreOfTheory};
ghost use Rattle.input_proofs.specs.Functions.{searched_clauses, searched_vocabulary};
ghost use Rattle.kernel.specs.Statements.{AreClosed};
ghost use Rattle.step_clauses.specs.Inputs.{search_input as input_of, search_symbols};
ghost use Rattle.step_clauses.specs.Room.{HasRoom};
ghost use Rattle.step_clauses.specs.Wide.{is_wide};
ghost use Rattle.step_search.specs.Search.{IsSearched};

use crate::grown::with_functions;
use crate::outcome::Searched;
use clause_form::{Clause, FormFault, Parent};
use fof_terms::{Form, Signature};
use proof_check::Theory;
use saturation::{Outcome, search};
use search_proofs::refutation_entries;
use std::alloc::Global;
use step_clauses::{Clausal, search_input};
use tptp_base::Memory;

/// Searches for a refutation of the clauses of the parents and of the negation of the line, among at most `limit`
/// clauses. Where one is found, it gives entries that derive the line from the parents.
pub fn searched(
    alloc: Global,
    theory: &Theory,
    parents: &[Parent],
    line: &Form,
    limit: u32,
) -> Result<Searched, Memory>
    requires closed { AreClosed theory.now }
    requires parents { AreOfTheory theory.now parents.now }
    requires ready { AreReady theory.now.vocabulary parents.now }
    requires line { IsReady theory.now.vocabulary line.now }
    requires room { HasRoom (length theory.now.vocabulary.symbols) (forms_of parents.now) line.now }
    ensures { IfOk result (IsSearched theory.now parents.now line.now limit) }
{
    let signature = theory.signature();
    let next = signature.symbol_count();
    match search_input(alloc, parents, line, next) {
        Ok(input) => search_clauses(alloc, theory, parents, line, limit, input),
        Err(FormFault::Wide) => Ok(Searched::Wide),
        Err(FormFault::Memory) => Err(Memory),
    }
}

// The same with the clauses and functions of a step that is not wide.
fn search_clauses(
    alloc: Global,
    theory: &Theory,
    parents: &[Parent],
    line: &Form,
    limit: u32,
    input: Clausal,
) -> Result<Searched, Memory>
    requires closed { AreClosed theory.now }
    requires parents { AreOfTheory theory.now parents.now }
    requires ready { AreReady theory.now.vocabulary parents.now }
    requires line { IsReady theory.now.vocabulary line.now }
    requires room { HasRoom (length theory.now.vocabulary.symbols) (forms_of parents.now) line.now }
    requires narrow { is_wide (length theory.now.vocabulary.symbols) (forms_of parents.now) line.now ≡ false }
    requires clauses { input.clauses ≡ input_of (length theory.now.vocabulary.symbols) (forms_of parents.now) line.now }
    requires functions { input.skolems
        ≡ search_symbols (length theory.now.vocabulary.symbols) (forms_of parents.now) line.now }
    ensures { IfOk result (IsSearched theory.now parents.now line.now limit) }
{
    let signature = with_functions(alloc, theory.signature(), input.skolems.as_slice())?;
    let clauses = input.clauses.as_slice();
    search_over(alloc, theory, &signature, parents, line, limit, clauses)
}

// The same over the signature of the theory with the functions of the step.
fn search_over(
    alloc: Global,
    theory: &Theory,
    signature: &Signature,
    parents: &[Parent],
    line: &Form,
    limit: u32,
    clauses: &[Clause],
) -> Result<Searched, Memory>
    requires closed { AreClosed theory.now }
    requires parents { AreOfTheory theory.now parents.now }
    requires ready { AreReady theory.now.vocabulary parents.now }
    requires line { IsReady theory.now.vocabulary line.now }
    requires room { HasRoom (length theory.now.vocabulary.symbols) (forms_of parents.now) line.now }
    requires narrow { is_wide (length theory.now.vocabulary.symbols) (forms_of parents.now) line.now ≡ false }
    requires signature { signature.now ≡ searched_vocabulary theory.now.vocabulary parents.now line.now }
    requires clauses { clauses.now ≡ searched_clauses theory.now.vocabulary parents.now line.now }
    ensures { IfOk result (IsSearched theory.now parents.now line.now limit) }
{
    let outcome = search(alloc, signature, clauses, limit)?;
    match &outcome {
        Outcome::Refuted(members, empty) => {
            let entries = refutation_entries(
                alloc,
                theory,
                signature,
                parents,
                line,
                clauses,
                members.as_slice(),
                empty,
            )?;
            Ok(Searched::Refuted(entries))
        }
        Outcome::Dry(_) => Ok(Searched::Dry),
        Outcome::Full(_) => Ok(Searched::Full),
        Outcome::Heavy(_) => Ok(Searched::Heavy),
    }
}
