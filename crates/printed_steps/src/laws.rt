//! Laws of steps between clauses, shown by functions that do nothing.
ghost use Rattle.std.specs.Prelude.{◌≡◌, ◌≤◌, ℕ, List, Some, slice_get, true};
ghost use Rattle.fof_terms.specs.declared.form.Form.{Form as Formula};
ghost use Rattle.fof_terms.specs.Vocabulary.{Vocabulary};
ghost use Rattle.clause_form.specs.declared.clause.Clause.{Clause as Disjunction};
ghost use Rattle.clause_form.specs.declared.path.Parent.{Parent as Premise};
ghost use Rattle.clause_form.specs.declared.path.Path.{Path as Way};
ghost use Rattle.clause_form.specs.ClauseView.{clause_of, closed, IsLoneFalsehood};
ghost use Rattle.clause_form.specs.ClauseWays.{IsIn};
ghost use Rattle.clause_form.specs.Clauses.{clauses_in};
ghost use Rattle.clause_form.specs.Norm.{norm_of};
ghost use Rattle.clause_form.specs.Sizes.{norm_size_of};
ghost use Rattle.clause_form.specs.Covers.{AreSorted, Covers, scope_of};
ghost use Rattle.clause_rules.specs.CoverRule.{IsCoverStep, ReachesClause};
ghost use Rattle.printed_clauses.specs.Renumbered.{renumbered_clause};
ghost use Rattle.printed_clauses.specs.Trimmed.{trimmed};
ghost use Rattle.printed_steps.specs.Carried.{AreCarried, HasItsVariables};
ghost use Rattle.printed_steps.specs.Follows.{IsByEqFactor, IsByParamodulation, IsByResolution};
ghost use Rattle.printed_steps.specs.Printed.{IsPlain};

/// What follows from clauses follows over another vocabulary, to which their functions are carried.
pub fn renumbered_follow()
    ensures resolution { (v w : Vocabulary) (number : ℕ → ℕ) (c d e : Disjunction) → AreCarried v w number c
        → AreCarried v w number d → AreCarried v w number e → IsByResolution v c d e
        → IsByResolution w (renumbered_clause number c) (renumbered_clause number d) (renumbered_clause number e) }
    ensures paramodulation { (v w : Vocabulary) (number : ℕ → ℕ) (c d e : Disjunction) → AreCarried v w number c
        → AreCarried v w number d → AreCarried v w number e → IsByParamodulation v c d e
        → IsByParamodulation w (renumbered_clause number c) (renumbered_clause number d) (renumbered_clause number e) }
    ensures eqfactor { (v w : Vocabulary) (number : ℕ → ℕ) (c e : Disjunction) → AreCarried v w number c
        → AreCarried v w number e → IsByEqFactor v c e
        → IsByEqFactor w (renumbered_clause number c) (renumbered_clause number e) }
    ensures cover { (v w : Vocabulary) (number : ℕ → ℕ) (c e : Disjunction) → AreCarried v w number c
        → AreCarried v w number e → Covers v c e
        → Covers w (renumbered_clause number c) (renumbered_clause number e) }
{}

/// The variables that occur in a well-sorted clause are its own, also where its functions have other numbers.
pub fn variables_are_own()
    ensures sorted { (v : Vocabulary) (c : Disjunction) → AreSorted v (scope_of c) c.lits → HasItsVariables c }
    ensures renumbered { (number : ℕ → ℕ) (c : Disjunction) → HasItsVariables c
        → HasItsVariables (renumbered_clause number c) }
{}

/// What follows from clauses follows without the sorts of variables that do not occur in them.
pub fn trimmed_follow()
    ensures resolution { (v : Vocabulary) (c d e : Disjunction) → HasItsVariables c → HasItsVariables d
        → HasItsVariables e → IsByResolution v c d e → IsByResolution v (trimmed c) (trimmed d) (trimmed e) }
    ensures paramodulation { (v : Vocabulary) (c d e : Disjunction) → HasItsVariables c → HasItsVariables d
        → HasItsVariables e → IsByParamodulation v c d e → IsByParamodulation v (trimmed c) (trimmed d) (trimmed e) }
    ensures eqfactor { (v : Vocabulary) (c e : Disjunction) → HasItsVariables c → HasItsVariables e
        → IsByEqFactor v c e → IsByEqFactor v (trimmed c) (trimmed e) }
    ensures cover { (v : Vocabulary) (c e : Disjunction) → HasItsVariables c → HasItsVariables e → Covers v c e
        → Covers v (trimmed c) (trimmed e) }
{}

/// A clause that a path reaches in the normal form of a parent follows from the parent by `cover`, without the sorts of
/// variables that do not occur in it.
pub fn reached_is_covered()
    ensures { (v : Vocabulary) (parents : List Premise) (a : ℕ) (path : Way) (c : Disjunction)
        → ReachesClause parents a path c → HasItsVariables c → (IsLoneFalsehood c → ⊥)
        → IsCoverStep v parents (closed (trimmed c)) }
{}

/// The same of each clause of the normal form.
pub fn listed_is_covered()
    ensures { (v : Vocabulary) (parents : List Premise) (a : ℕ) (p : Premise) (c : Disjunction)
        → slice_get parents a ≡ Some p → norm_size_of p.form ≤ 100000 → IsIn c (clauses_in (norm_of true p.form))
        → HasItsVariables c → (IsLoneFalsehood c → ⊥) → IsCoverStep v parents (closed (trimmed c)) }
{}

/// A line that covers the clause that a parent is follows from it by `cover`, where the parent is a clause without truth
/// and falsehood, and without the sorts of variables that do not occur.
pub fn covering_is_step()
    ensures { (v : Vocabulary) (parents : List Premise) (line : Formula) (a : ℕ) (p : Premise) (c e : Disjunction)
        → slice_get parents a ≡ Some p → p.form ≡ closed (trimmed c) → norm_size_of p.form ≤ 100000 → IsPlain c.lits
        → HasItsVariables c → clause_of line ≡ Some e → Covers v (trimmed c) e → IsCoverStep v parents line }
{}
