//! Entries that derive a line by a refutation of the clauses of its step.
ghost use Rattle.std.specs.Prelude.{◌≡◌, false, [], length, IfOk};
ghost use Rattle.std.specs.List.{All as Each};
ghost use Rattle.clause_form.specs.Paths.{forms_of};
ghost use Rattle.clause_rules.specs.Steps.{AreReady, IsReady};
ghost use Rattle.derive_kit.specs.Derived.{AreOfTheory};
ghost use Rattle.input_proofs.specs.Functions.{searched_clauses, searched_vocabulary};
ghost use Rattle.kernel.specs.Statements.{AreClosed};
ghost use Rattle.saturation.specs.Members.{clauses_of};
ghost use Rattle.saturation.specs.Origins.{AreMade, IsMade};
ghost use Rattle.search_proofs.specs.Searched.{IsSearchedFrom};
ghost use Rattle.search_proofs.specs.code.Derived.{AreDerived, IsDerived};
ghost use Rattle.step_clauses.specs.Room.{HasRoom};
ghost use Rattle.step_clauses.specs.Wide.{is_wide};
ghost use Rattle.superpose.specs.Drafts.{IsClause};

use crate::declaring::declarations;
use crate::ending::ending_of;
use crate::merging::merged_members;
use crate::placing::further;
use crate::refuting::proofs_of_refutation;
use crate::wanting::wanted_inputs;
use clause_form::{Clause, Parent};
use fof_terms::{Form, Signature};
use input_proofs::{OpenedInputs, open_inputs};
use kernel::Entry;
use negated_lemmas::lemmas_of_refutation;
use proof_check::Theory;
use saturation::Member;
use std::alloc::Global;
use tptp_base::{List, Memory};

/// Entries that derive the line from the parents, by a list of members that refutes the clauses of the step, and by the
/// further one, which is empty. The signature is that of the theory with the functions of the step.
pub fn refutation_entries(
    alloc: Global,
    theory: &Theory,
    signature: &Signature,
    parents: &[Parent],
    line: &Form,
    inputs: &[Clause],
    members: &[Member],
    empty: &Member,
) -> Result<List<Entry>, Memory>
    requires closed { AreClosed theory.now }
    requires parents { AreOfTheory theory.now parents.now }
    requires ready { AreReady theory.now.vocabulary parents.now }
    requires line { IsReady theory.now.vocabulary line.now }
    requires room { HasRoom (length theory.now.vocabulary.symbols) (forms_of parents.now) line.now }
    requires narrow { is_wide (length theory.now.vocabulary.symbols) (forms_of parents.now) line.now ≡ false }
    requires signature { signature.now ≡ searched_vocabulary theory.now.vocabulary parents.now line.now }
    requires inputs { inputs.now ≡ searched_clauses theory.now.vocabulary parents.now line.now }
    requires members { AreMade signature.now inputs.now members.now }
    requires last { IsMade signature.now inputs.now (clauses_of members.now) empty.now }
    requires fit { Each (λ m. IsClause signature.now m.clause) members.now }
    requires last_fit { IsClause signature.now empty.now.clause }
    requires empty { empty.now.clause.lits ≡ [] }
    ensures { IfOk result (λ entries. IsSearchedFrom theory.now parents.now entries line.now) }
{
    let merged = merged_members(alloc, members)?;
    entries_by(
        alloc,
        theory,
        signature,
        parents,
        line,
        inputs,
        merged.as_slice(),
        empty,
    )
}

// The same by members each of which follows by a rule.
fn entries_by(
    alloc: Global,
    theory: &Theory,
    signature: &Signature,
    parents: &[Parent],
    line: &Form,
    inputs: &[Clause],
    members: &[Member],
    empty: &Member,
) -> Result<List<Entry>, Memory>
    requires closed { AreClosed theory.now }
    requires parents { AreOfTheory theory.now parents.now }
    requires ready { AreReady theory.now.vocabulary parents.now }
    requires line { IsReady theory.now.vocabulary line.now }
    requires room { HasRoom (length theory.now.vocabulary.symbols) (forms_of parents.now) line.now }
    requires narrow { is_wide (length theory.now.vocabulary.symbols) (forms_of parents.now) line.now ≡ false }
    requires signature { signature.now ≡ searched_vocabulary theory.now.vocabulary parents.now line.now }
    requires inputs { inputs.now ≡ searched_clauses theory.now.vocabulary parents.now line.now }
    requires members { AreDerived signature.now inputs.now members.now }
    requires last { IsDerived signature.now inputs.now (clauses_of members.now) empty.now }
    requires fit { Each (λ m. IsClause signature.now m.clause) members.now }
    requires last_fit { IsClause signature.now empty.now.clause }
    requires empty { empty.now.clause.lits ≡ [] }
    ensures { IfOk result (λ entries. IsSearchedFrom theory.now parents.now entries line.now) }
{
    signature.is_vocabulary();
    let ending = ending_of(alloc, signature, members, empty)?;
    let needed = ending.needed.as_slice();
    let wanted = wanted_inputs(alloc, inputs.len(), members, needed, empty)?;
    let opened = open_inputs(alloc, theory, parents, line, wanted.as_slice())?;
    let OpenedInputs {
        choices,
        facts,
        proofs,
    } = opened;
    let denied = further(theory.len(), choices.len())?;
    let start = further(denied, 1)?;
    let proofs = proofs_of_refutation(
        alloc,
        signature,
        start,
        facts,
        proofs,
        members,
        needed,
        empty,
        &ending.found,
    )?;
    further(denied, proofs.len())?;
    let lemmas = lemmas_of_refutation(alloc, line, denied, proofs.as_slice())?;
    let mut entries = declarations(alloc, signature, theory.signature().symbol_count())?;
    entries.append(choices)?;
    entries.append(lemmas)?;
    Ok(entries)
}
