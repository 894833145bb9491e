//! The clauses of a step, opened for a search.
ghost use Rattle.std.specs.Prelude.{◌≡◌, ◌+◌, false, length, map, [], IfOk};
ghost use Rattle.std.specs.Option.{option_map};
ghost use Rattle.clause_form.specs.Paths.{forms_of};
ghost use Rattle.clause_rules.specs.Steps.{AreReady, IsReady};
ghost use Rattle.derive_kit.specs.Derived.{AreOfTheory};
ghost use Rattle.input_proofs.specs.Functions.{searched_clauses};
ghost use Rattle.input_proofs.specs.Opened.{AreOpened};
ghost use Rattle.input_proofs.specs.code.Pending.{cited};
ghost use Rattle.kernel.specs.Statements.{AreClosed};
ghost use Rattle.step_clauses.specs.Room.{HasRoom};
ghost use Rattle.step_clauses.specs.Wide.{is_wide};

use crate::forms::{Opening, Source, open_form};
use crate::pending::{cite_all, further};
use clause_form::Parent;
use fof_terms::{Form, SymId};
use kernel::{Entry, Proof};
use proof_check::Theory;
use std::alloc::Global;
use tptp_base::{Boxed, List, Memory};

/// Proofs of clauses of a step, and what they stand on.
#[derive(Drop)]
pub struct OpenedInputs {
    /// Entries by which the functions choose, for a theory in which the functions are declared.
    pub choices: List<Entry>,
    /// Proofs of formulas of the step, in their normal forms with the functions in place of existential variables. They
    /// need the choices, and behind them the negation of the line.
    pub facts: List<Proof>,
    /// A proof of each clause that is wanted, at the clause's place. They need the facts, which stand behind the line's
    /// negation.
    pub proofs: List<Option<Proof>>,
}

/// Opens the parents and the negation of the line as far as clauses are wanted: gives entries by which the functions of
/// the step choose, proofs of the formulas with these functions, and proofs of the clauses.
pub fn open_inputs(
    alloc: Global,
    theory: &Theory,
    parents: &[Parent],
    line: &Form,
    wanted: &[bool],
) -> Result<OpenedInputs, Memory>
    requires closed { AreClosed theory.now }
    requires parents { AreOfTheory theory.now parents.now }
    requires ready { AreReady theory.now.vocabulary parents.now }
    requires line { IsReady theory.now.vocabulary line.now }
    requires room { HasRoom (length theory.now.vocabulary.symbols) (forms_of parents.now) line.now }
    requires narrow { is_wide (length theory.now.vocabulary.symbols) (forms_of parents.now) line.now ≡ false }
    requires wanted { length wanted.now ≡ length (searched_clauses theory.now.vocabulary parents.now line.now) }
    ensures { IfOk result (AreOpened theory.now parents.now line.now wanted.now) }
{
    let first = theory.len();
    let mut opening = nothing(alloc, theory.signature().symbol_count());
    for parent in parents {
        let number = Some(parent.number);
        let form = &parent.form;
        open_form(alloc, &Source { form, number }, first, wanted, &mut opening)?;
    }
    let denied = Form::Not(Boxed::new(alloc, line.copy(alloc)?)?);
    let number = None;
    let form = &denied;
    open_form(alloc, &Source { form, number }, first, wanted, &mut opening)?;
    finish(alloc, first, opening)
}

// No formula is opened.
fn nothing(alloc: Global, next: SymId) -> Opening
    ensures { result ≡ record { next = next; choices = []; facts = []; pending = [] } }
{
    Opening {
        next,
        choices: List::new(alloc),
        facts: List::new(alloc),
        pending: List::new(alloc),
    }
}

// The clauses by the facts, which stand behind the choices and the negation of the line.
fn finish(alloc: Global, first: u64, opening: Opening) -> Result<OpenedInputs, Memory>
    ensures { IfOk result (λ opened. opened ≡ record {
      choices = opening.choices;
      facts = opening.facts;
      proofs = map (option_map (cited (first + length opening.choices + 1))) opening.pending;
    }) }
{
    let Opening {
        next: _,
        choices,
        facts,
        pending,
    } = opening;
    let denied = further(first, choices.len())?;
    let number = further(denied, 1)?;
    let proofs = cite_all(alloc, number, pending)?;
    Ok(OpenedInputs {
        choices,
        facts,
        proofs,
    })
}
