// Theories and deductions.
ghost use Rattle.fof_terms.specs.Occurs.{occurs_in};
ghost use Rattle.fof_terms.specs.Sorts.{Sorted};
ghost use Rattle.proof_check.specs.Concludes.{Concludes, IsContext};
ghost use Rattle.kernel.specs.Entries.{After, Legal};
ghost use Rattle.kernel.specs.Statements.{IsRefuted};
ghost use Rattle.std.specs.List.{All as Each, list_any};
ghost use Rattle.std.specs.Option.{option_copied};
ghost use Rattle.std.specs.Prelude.{IfOk, IfSome, IsErrOf, IsTrue, OnErr, OnOk, [], reverse, slice_get, ◌↔◌, ◌≡◌};

use crate::{Control, Probe};
use fof_terms::{Form, Signature, SymId};
use kernel::{Entry, Proof};
use proof_check::{AdmitFault, Context, Theory, conclude};
use std::alloc::Global;
use tptp_base::{List, Memory};

/// Makes theories grow.
pub trait Theories {
    /// The formula that the rules give; None exactly where they give none.
    fn conclude(
        alloc: Global,
        theory: &Theory,
        context: &Context,
        proof: &Proof,
    ) -> Result<Option<Form>, Memory>
        requires { IsContext theory.now.vocabulary (reverse context.now.sorts) (reverse context.now.hyps) }
        ensures { IfOk result (λ answer. Concludes theory.now (reverse context.now.sorts)
            (reverse context.now.hyps) proof.now answer) };

    /// The theory of formulas that are closed and well-sorted.
    fn start(alloc: Global, signature: Signature, given: List<Form>) -> Result<Theory, Memory>
        requires { Each (Sorted signature []) given }
        ensures { IfOk result (λ theory. theory ≡ record { vocabulary = signature; formulas = given }) };

    /// Adds what the entry says.
    fn admit(theory: &mut Theory, entry: &Entry) -> Result<(), AdmitFault>
        ensures ok { OnOk result (Legal theory.old entry.now × After theory.old entry.now theory.new) }
        ensures illegal { IsErrOf result AdmitFault.Illegal → Legal theory.old entry.now → ⊥ }
        ensures err { OnErr result (theory.new ≡ theory.old) };

    /// Whether the last formula is falsehood.
    fn refuted(theory: &Theory) -> bool
        ensures { IsTrue result ↔ IsRefuted theory.now };

    /// The formula of that number, counted from 0; None exactly where the number isn't there.
    fn formula(theory: &Theory, number: u64) -> Option<&Form>
        ensures value { option_copied result ≡ slice_get theory.now.formulas number }
        ensures closed { IfSome result (λ form. Sorted theory.now.vocabulary [] form.now) };

    /// Whether the symbol stands in some formula.
    fn uses(theory: &Theory, symbol: SymId) -> bool
        ensures { result ≡ list_any (occurs_in symbol) theory.now.formulas };
}

impl Theories for Probe {
    fn conclude(
        alloc: Global,
        theory: &Theory,
        context: &Context,
        proof: &Proof,
    ) -> Result<Option<Form>, Memory> {
        conclude(alloc, theory, context, proof)
    }

    fn start(alloc: Global, signature: Signature, given: List<Form>) -> Result<Theory, Memory> {
        Theory::start(alloc, signature, given)
    }

    fn admit(theory: &mut Theory, entry: &Entry) -> Result<(), AdmitFault> {
        theory.admit(entry)
    }

    fn refuted(theory: &Theory) -> bool {
        theory.refuted()
    }

    fn formula(theory: &Theory, number: u64) -> Option<&Form> {
        theory.formula(number)
    }

    fn uses(theory: &Theory, symbol: SymId) -> bool {
        theory.uses(symbol)
    }
}

impl Theories for Control {
    fn conclude(
        alloc: Global,
        theory: &Theory,
        context: &Context,
        proof: &Proof,
    ) -> Result<Option<Form>, Memory> {
        match conclude(alloc, theory, context, proof)? {
            Some(form) => Ok(Some(form)),
            None => Ok(None),
        }
    }

    fn start(alloc: Global, signature: Signature, given: List<Form>) -> Result<Theory, Memory> {
        match Theory::start(alloc, signature, given) {
            Ok(theory) => Ok(theory),
            Err(Memory) => Err(Memory),
        }
    }

    fn admit(theory: &mut Theory, entry: &Entry) -> Result<(), AdmitFault> {
        match theory.admit(entry) {
            Ok(()) => Ok(()),
            Err(fault) => Err(fault),
        }
    }

    fn refuted(theory: &Theory) -> bool {
        if theory.refuted() {
            return true;
        }
        false
    }

    fn formula(theory: &Theory, number: u64) -> Option<&Form> {
        match theory.formula(number) {
            Some(form) => Some(form),
            None => None,
        }
    }

    fn uses(theory: &Theory, symbol: SymId) -> bool {
        if theory.uses(symbol) {
            return true;
        }
        false
    }
}
