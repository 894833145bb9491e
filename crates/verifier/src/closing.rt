// The log's last entry.
ghost use Rattle.std.specs.Prelude.{◌≡◌, ◌≤◌, ◌↔◌, ℕ, [], IfErr, OnOk, OnErr, MatchOption, Some};
ghost use Rattle.tptp_base.specs.Count.{Rose};
ghost use Rattle.fof_terms.specs.declared.form.Form.{Or};
ghost use Rattle.kernel.specs.Statements.{Statements};
ghost use Rattle.verifier.specs.Closing.{ClosesLog, HasFalseLine, IsLastFalse, IsVerified};
ghost use Rattle.verifier.specs.Faults.{HasCause};
ghost use Rattle.verifier.specs.Lines.{LinesStand};
ghost use Rattle.verifier.specs.Logged.{LogsSome};
ghost use Rattle.verifier.specs.code.Latest.{later as later_of};

use crate::answer::Verdict;
use crate::falsehood::is_false;
use crate::fault::RunFault;
use crate::parents::number_at;
use fof_terms::Form;
use kernel::{Entry, Proof};
use proof_log::write_entry;
use std::alloc::Global;
use tptp_base::{Boxed, Sink};

/// Writes the last entry of a log: where all is verified, a lemma that cites the line that is falsehood, of several the
/// one that was checked last, and else nothing. The formulas and the numbers of the lines stand in the order of the
/// text.
///
/// # Errors
///
/// `Sink` where the log failed, and `Memory`. The log has then taken a prefix of the line of an entry, which is legal
/// in each theory that has the lines at their numbers.
pub fn close_log<K: Sink>(
    alloc: Global,
    verdict: &Verdict,
    forms: &[Form],
    numbers: &[Option<u64>],
    log: &mut K,
) -> Result<(), RunFault>
    requires { IsVerified verdict.now → HasFalseLine forms.now numbers.now }
    ensures closes { OnOk result (ClosesLog verdict.now forms.now numbers.now (K.taken log.old) (K.taken log.new)) }
    ensures cut { (t : Statements) → LinesStand t forms.now numbers.now
        → OnErr result (LogsSome t (K.taken log.old) (K.taken log.new)) }
    ensures cause { IfErr result (λ fault. HasCause fault (Rose (K.faults log.old) (K.faults log.new))) }
    ensures more_faults { K.faults log.old ≤ K.faults log.new }
{
    match verdict {
        Verdict::Verified(_, _, _) => {
            let Some(number) = last_false(forms, numbers) else {
                unreachable!()
            };
            let entry = Boxed::new(alloc, Entry::Lemma(Proof::Line(number)))?;
            write_entry(alloc, entry.get(), log)?;
            Ok(())
        }
        Verdict::Failed(_, _, _) => Ok(()),
        Verdict::NoFalse => Ok(()),
        Verdict::BadClaim(_) => Ok(()),
    }
}

// The number of the line that is falsehood, of several the one that was checked last, if there is one.
fn last_false(forms: &[Form], numbers: &[Option<u64>]) -> Option<u64>
    ensures { MatchOption result (HasFalseLine forms.now numbers.now → ⊥) (IsLastFalse forms.now numbers.now) }
{
    let mut last = None;
    for (place, form) in forms.iter().enumerate() {
        last = later(last, false_number(form, number_at(numbers, place)));
    }
    last
}

// The number of the line, if it is falsehood.
fn false_number(form: &Form, number: Option<u64>) -> Option<u64>
    ensures { (n : ℕ) → (result ≡ Some n) ↔ ((form.now ≡ Or []) × (number ≡ Some n)) }
{
    if is_false(form) { number } else { None }
}

// The greater of two numbers, if there are any.
fn later(first: Option<u64>, second: Option<u64>) -> Option<u64>
    ensures { result ≡ later_of first second }
{
    match (first, second) {
        (Some(one), Some(other)) if one < other => second,
        (Some(_), _) => first,
        (None, _) => second,
    }
}
