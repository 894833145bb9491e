//! Laws of justifications, shown by functions that do nothing.
ghost use Rattle.std.specs.Prelude.{List};
ghost use Rattle.fof_terms.specs.declared.form.Form.{Form as Formula};
ghost use Rattle.fof_terms.specs.Vocabulary.{Vocabulary};
ghost use Rattle.clause_form.specs.declared.path.Parent.{Parent as Source};
ghost use Rattle.clause_rules.specs.declared.just.Just.{Just as Reason};
ghost use Rattle.clause_rules.specs.Answers.{Holds, rule_of};
ghost use Rattle.clause_rules.specs.Justified.{Shows};

/// Where a justification shows a step, its rule gives the line from the parents.
pub fn what_is_shown_holds()
    ensures { (v : Vocabulary) (parents : List Source) (line : Formula) (just : Reason) → Shows v parents line just
        → Holds v parents line (rule_of just) }
{}
