// What a problem gives to a derivation from it.
ghost use Rattle.std.specs.Prelude.{◌≡◌, ◌⊎◌, ◌≤◌, ◌<◌, ◌^◌, ◌∷◌, [], ◌++◌, IfOk, OnOk, length, map};
ghost use Rattle.std.specs.List.{All};
ghost use Rattle.std.specs.Option.{option_copied};
ghost use Rattle.tptp_base.specs.Count.{Rose};
ghost use Rattle.sort_check.specs.Sorting.{AreDeclared, AreGivenSorted, IsSentence};
ghost use Rattle.sort_check.specs.Texts as texts;
ghost use Rattle.read_problems.specs.Answer.{ending_of};
ghost use Rattle.read_problems.specs.Denoted.{IsProblemRefusal};
ghost use Rattle.read_problems.specs.OtherFaults.{SaysProblemFault};
ghost use Rattle.read_problems.specs.Sources as spec;
ghost use Rattle.read_problems.specs.Sources.{IsSource};
ghost use Rattle.read_problems.specs.Stop.{HasCause, IfRefused, IfStopped};
ghost use Rattle.read_problems.specs.declared.refusals.TheConstants.{TOTAL_SIZE};

use crate::given::reversed;
use crate::posed::{Posed, read_posed};
use crate::stop::Halt;
use fof_terms::{Form, Signature};
use proof_check::Theory;
use sort_check::{GivenEntry, copy_signature};
use std::alloc::Global;
use tptp_base::{List, Memory, Name, Role, Store};

/// What a problem gives to a derivation from it.
#[derive(Drop)]
pub struct Source {
    /// The theory of the given formulas.
    pub theory: Theory,
    /// The signature of the problem.
    pub signature: Signature,
    /// The names of the given formulas.
    pub names: List<Name>,
    /// For each given formula whether its role is conjecture or negated_conjecture.
    pub marks: List<bool>,
    /// Whether the problem has a conjecture.
    pub has_conjecture: bool,
    /// How many bytes the problem's files have.
    pub read: u64,
}

/// What the problem in the file gives, with all that it includes. The first fault is refused.
pub fn read_source<S: Store>(
    alloc: Global,
    store: &mut S,
    root: Option<&str>,
    file: &str,
) -> Result<Source, Halt>
    ensures is { IfOk result (λ source. IsSource (S.files store.old) (option_copied root.entry) file.now source) }
    ensures few { IfOk result (λ source. length source.names < 2 ^ 32) }
    ensures sentences { IfOk result (λ source. All (IsSentence source.signature) source.theory.formulas) }
    ensures declared { IfOk result (λ source. AreDeclared source.signature) }
    ensures in_budget { IfOk result (λ source. source.read ≤ TOTAL_SIZE) }
    ensures refused { IfRefused result (λ answer.
        IsProblemRefusal (S.files store.old) (option_copied root.entry) file.now (ending_of answer)) }
    ensures status { IfRefused result (λ answer. (answer.status ≡ 3) ⊎ (answer.status ≡ 7)) }
    ensures absence { IfRefused result (λ answer. Rose (S.absents store.old) (S.absents store.new)
        ⊎ SaysProblemFault (S.files store.old) (option_copied root.entry) file.now (ending_of answer)) }
    ensures cause { IfStopped result (λ stop. HasCause stop (Rose (S.faults store.old) (S.faults store.new)) ⊥) }
    ensures same_files { S.files store.new ≡ S.files store.old }
    ensures more_absents { S.absents store.old ≤ S.absents store.new }
    ensures more_faults { S.faults store.old ≤ S.faults store.new }
{
    let posed = read_posed(alloc, store, root, file)?;
    let source = source_of(alloc, posed)?;
    Ok(source)
}

/// What a problem gives that poses this. The signature is copied, and no formula.
pub fn source_of(alloc: Global, posed: Posed) -> Result<Source, Memory>
    requires { AreGivenSorted posed.signature posed.given }
    ensures theory { IfOk result (λ source. source.theory ≡ spec.entry_theory posed.signature posed.given) }
    ensures signature { IfOk result (λ source. source.signature ≡ posed.signature) }
    ensures names { IfOk result (λ source. source.names ≡ spec.entry_names posed.given) }
    ensures marks { IfOk result (λ source. source.marks ≡ spec.entry_marks posed.given) }
    ensures conjecture { IfOk result (λ source. source.has_conjecture ≡ spec.have_conjecture posed.given) }
    ensures read { IfOk result (λ source. source.read ≡ posed.read) }
{
    let Posed {
        signature,
        given,
        read,
    } = posed;
    let has_conjecture = have_conjecture(given.as_slice());
    let parts = parts_of(alloc, given)?;
    let Parts {
        names,
        marks,
        forms,
    } = parts;
    let theory = Theory::start(alloc, copy_signature(alloc, &signature)?, forms)?;
    Ok(Source {
        theory,
        signature,
        names,
        marks,
        has_conjecture,
        read,
    })
}

// What entries are made of.
#[derive(Drop)]
struct Parts {
    names: List<Name>,
    // For each entry whether its role is conjecture or negated_conjecture.
    marks: List<bool>,
    forms: List<Form>,
}

// The parts of entries, which are let go on the way.
fn parts_of(alloc: Global, entries: List<GivenEntry>) -> Result<Parts, Memory>
    ensures names { IfOk result (λ parts. parts.names ≡ spec.entry_names entries) }
    ensures marks { IfOk result (λ parts. parts.marks ≡ spec.entry_marks entries) }
    ensures forms { IfOk result (λ parts. parts.forms ≡ map (λ entry. entry.form) entries) }
{
    let mut left = reversed(alloc, entries)?;
    let mut parts = Parts {
        names: List::new(alloc),
        marks: List::new(alloc),
        forms: List::new(alloc),
    };
    while let Some(entry) = left.pop() {
        push_parts(entry, &mut parts)?;
    }
    Ok(parts)
}

// The parts of an entry, behind those that are there.
fn push_parts(entry: GivenEntry, parts: &mut Parts) -> Result<(), Memory>
    ensures names { OnOk result (parts.new.names ≡ parts.old.names ++ entry.name ∷ []) }
    ensures marks { OnOk result (parts.new.marks ≡ parts.old.marks ++ spec.is_of_conjecture entry.role ∷ []) }
    ensures forms { OnOk result (parts.new.forms ≡ parts.old.forms ++ entry.form ∷ []) }
{
    let GivenEntry { name, role, form } = entry;
    parts.names.push(name)?;
    parts.marks.push(is_of_conjecture(role))?;
    parts.forms.push(form)?;
    Ok(())
}

// Whether the role is conjecture or negated_conjecture.
fn is_of_conjecture(role: Role) -> bool
    ensures { result ≡ spec.is_of_conjecture role }
{
    matches!(role, Role::Conjecture | Role::NegatedConjecture)
}

// Whether one of the entries comes of a conjecture.
fn have_conjecture(entries: &[GivenEntry]) -> bool
    ensures { result ≡ spec.have_conjecture entries.now }
{
    entries.iter().any(|entry| is_conjecture(entry.role))
}

// Whether the role is conjecture.
fn is_conjecture(role: Role) -> bool
    ensures { result ≡ texts.is_conjecture role }
{
    matches!(role, Role::Conjecture)
}
