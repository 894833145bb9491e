//! The entries by which a theory takes a definition.
ghost use Rattle.std.specs.Prelude.{◌≡◌, ◌⊎◌, [], IfOk};
ghost use Rattle.fof_terms.specs.declared.form.Form.{Iff, Imp, Eq as Equation};
ghost use Rattle.clause_rules.specs.Steps.{IsReady};
ghost use Rattle.derive_kit.specs.Derived.{IsDerivedFrom};
ghost use Rattle.split_defs.specs.DefinitionRule.{Defines};
ghost use Rattle.split_defs.specs.code.DefinitionSearch.{HeadsAt, ValuesAt, IsBody};

use crate::defining::predicate_entries;
use crate::definition::body_of;
use crate::valuing::function_entries;
use fof_terms::{Form, SymId, Term};
use kernel::Entry;
use proof_check::Theory;
use std::alloc::Global;
use tptp_base::{List, Memory};

/// The entries by which a theory takes a line that defines the symbol, which stands first or second under its
/// quantifiers. They are legal in turn, and the last is a lemma of the line. They need no formula of the theory.
pub fn definition_entries(
    alloc: Global,
    theory: &Theory,
    symbol: SymId,
    first: bool,
    line: &Form,
) -> Result<List<Entry>, Memory>
    requires line { IsReady theory.now.vocabulary line.now }
    requires shown { Defines theory.now line.now symbol first }
    ensures { IfOk result (λ entries. IsDerivedFrom theory.now [] entries line.now) }
{
    let body = body_of(line);
    match body {
        Form::Iff(left, right) | Form::Imp(left, right) => {
            relation_entries(
                alloc,
                theory,
                symbol,
                first,
                line,
                body,
                left.get(),
                right.get(),
            )
        }
        Form::Eq(left, right) => {
            equation_entries(alloc, theory, symbol, first, line, body, left, right)
        }
        _ => unreachable!(),
    }
}

// The entries of an equivalence or an implication.
fn relation_entries(
    alloc: Global,
    theory: &Theory,
    symbol: SymId,
    first: bool,
    line: &Form,
    body: &Form,
    left: &Form,
    right: &Form,
) -> Result<List<Entry>, Memory>
    requires line { IsReady theory.now.vocabulary line.now }
    requires body { IsBody line.now body.now }
    requires joins { (body.now ≡ Iff left.now right.now) ⊎ (body.now ≡ Imp left.now right.now) }
    requires heads { HeadsAt theory.now left.now right.now symbol first }
    ensures { IfOk result (λ entries. IsDerivedFrom theory.now [] entries line.now) }
{
    if first {
        predicate_entries(alloc, theory, symbol, true, line, body, left, right)
    } else {
        predicate_entries(alloc, theory, symbol, false, line, body, right, left)
    }
}

// The entries of an equation.
fn equation_entries(
    alloc: Global,
    theory: &Theory,
    symbol: SymId,
    first: bool,
    line: &Form,
    body: &Form,
    left: &Term,
    right: &Term,
) -> Result<List<Entry>, Memory>
    requires line { IsReady theory.now.vocabulary line.now }
    requires body { IsBody line.now body.now }
    requires equates { body.now ≡ Equation left.now right.now }
    requires values { ValuesAt theory.now left.now right.now symbol first }
    ensures { IfOk result (λ entries. IsDerivedFrom theory.now [] entries line.now) }
{
    if first {
        function_entries(alloc, theory, symbol, true, line, body, left, right)
    } else {
        function_entries(alloc, theory, symbol, false, line, body, right, left)
    }
}
