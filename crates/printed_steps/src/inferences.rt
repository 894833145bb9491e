//! Laws of inferences between clauses as a derivation prints them, shown by functions that do nothing.
ghost use Rattle.std.specs.Prelude.{◌≤◌, ◌⊎◌, ℕ, List, length};
ghost use Rattle.fof_terms.specs.declared.term.Term.{Term as Inner};
ghost use Rattle.fof_terms.specs.Vocabulary.{Vocabulary};
ghost use Rattle.clause_form.specs.declared.clause.Clause.{Clause as Disjunction};
ghost use Rattle.clause_form.specs.declared.path.Parent.{Parent as Premise};
ghost use Rattle.clause_rules.specs.EqFactorRule.{IsEqFactorStep};
ghost use Rattle.clause_rules.specs.ParamodulationRule.{IsParamodulationStep};
ghost use Rattle.clause_rules.specs.ResolutionRule.{IsResolutionStep};
ghost use Rattle.clause_rules.specs.Steps.{IsReady};
ghost use Rattle.superpose.specs.Drafts.{SortsExist};
ghost use Rattle.superpose.specs.Inferences.{InfersFromOne, InfersFromTwo};
ghost use Rattle.inference_proofs.specs.Inferred.{CoversParent};
ghost use Rattle.printed_steps.specs.Carried.{KeepsPredicates};
ghost use Rattle.printed_steps.specs.Printed.{printed, IsPrintable, IsPrintedAt};

/// What an inference gives from two clauses follows from them by `resolution` or `paramodulation`, as they are printed.
pub fn inferred_from_two()
    ensures { (v w : Vocabulary) (number : ℕ → ℕ) (parents : List Premise) (a b : ℕ) (c d e : Disjunction)
        (s : ℕ → Inner) → IsPrintable v w number c → IsPrintable v w number d → IsPrintable v w number e
        → IsPrintedAt number parents a c → IsPrintedAt number parents b d → InfersFromTwo v c d e s
        → IsResolutionStep w parents (printed number e) ⊎ IsParamodulationStep w parents (printed number e) }
{}

/// What an inference gives from one clause follows from it by `eqfactor`, or covers it, as it is printed.
pub fn inferred_from_one()
    ensures { (v w : Vocabulary) (number : ℕ → ℕ) (parents : List Premise) (a : ℕ) (c e : Disjunction) (s : ℕ → Inner)
        → IsPrintable v w number c → IsPrintable v w number e → IsPrintedAt number parents a c → InfersFromOne v c e s
        → IsEqFactorStep w parents (printed number e) ⊎ CoversParent w parents (printed number e) }
{}

/// A clause as it is printed is closed and well-sorted, where its predicates keep their numbers and its sorts exist.
pub fn printed_is_ready()
    ensures { (v w : Vocabulary) (number : ℕ → ℕ) (c : Disjunction) → IsPrintable v w number c → KeepsPredicates v w c
        → SortsExist w c.sorts → length c.sorts ≤ 1000000000 → IsReady w (printed number c) }
{}
