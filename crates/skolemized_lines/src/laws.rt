//! Laws of the lines that a derivation has of given formulas, shown by functions that do nothing.
ghost use Rattle.std.specs.Prelude.{◌<◌, ◌^◌, ℕ, List, false, length};
ghost use Rattle.std.specs.List.{All as Each};
ghost use Rattle.clause_rules.specs.Steps.{IsReady};
ghost use Rattle.derivation_follows.specs.Stepping.{StepsOfKindApply};
ghost use Rattle.fof_terms.specs.Vocabulary.{Vocabulary};
ghost use Rattle.problem_proofs.specs.Found.{IsFound, vocabulary_of};
ghost use Rattle.refutation_lines.specs.declared.derivation.Derivation.{Derivation as Found};
ghost use Rattle.sort_check.specs.declared.line.GivenEntry.{GivenEntry as Entry};

/// Some rule gives each step of a derivation that is found and is not inferred from other clauses, behind the lines
/// before it: `skolem` a line with new functions, from the given formula that it is of, and `cover` a clause, from the
/// line with new functions or the given formula. The given formulas are closed and well-sorted.
pub fn steps_from_given_formulas_apply()
    ensures { (v : Vocabulary) (given : List Entry) (limit : ℕ) (d : Found) → length given < 2 ^ 64 → limit < 2 ^ 32
        → Each (λ g. IsReady v g.form) given → IsFound v given limit d
        → StepsOfKindApply false (vocabulary_of v d) given d.lines }
{}
