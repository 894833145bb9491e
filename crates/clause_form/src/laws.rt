//! Laws of clauses and of their instances, shown by functions that do nothing.
ghost use Rattle.std.specs.Prelude.{◌≡◌, ◌≤◌, ℕ, Bool, [], Some, length, true};
ghost use Rattle.fof_terms.specs.declared.form.Form.{Form as Formula};
ghost use Rattle.fof_terms.specs.declared.term.Term.{Term as Inner};
ghost use Rattle.fof_terms.specs.Vocabulary.{Vocabulary};
ghost use Rattle.clause_form.specs.declared.clause.Clause.{Clause as Disjunction};
ghost use Rattle.clause_form.specs.ClauseView.{clause_of, closed, IsLoneFalsehood};
ghost use Rattle.clause_form.specs.declared.path.Path.{Path as Way};
ghost use Rattle.clause_form.specs.Clauses.{clauses_in, clauses_of};
ghost use Rattle.clause_form.specs.ClauseWays.{IsIn};
ghost use Rattle.clause_form.specs.Paths.{reached, IsReached};
ghost use Rattle.clause_form.specs.Norm.{norm_of};
ghost use Rattle.clause_form.specs.Sizes.{norm_size_of, clause_count_of};
ghost use Rattle.clause_form.specs.Images.{image};
ghost use Rattle.clause_form.specs.Covers.{AreSorted, Covers, IsInstance, IsTrivial, scope_of};

/// A clause that was closed is the clause again, unless its only literal is a falsehood that isn't denied.
pub fn view_of_closed()
    ensures { (c : Disjunction) → (IsLoneFalsehood c → ⊥) → clause_of (closed c) ≡ Some c }
{}

/// The normal form of a formula, or of its negation, has at most the formula's norm size.
pub fn norm_no_larger()
    ensures { (a : Formula) (positive : Bool) → norm_size_of (norm_of positive a) ≤ norm_size_of a }
{}

/// An image of an image is the image by the images of the images.
pub fn image_of_image()
    ensures { (t s : ℕ → Inner) (u : Inner) → image t (image s u) ≡ image (λ k. image t (s k)) u }
{}

/// An instance of a trivial clause is trivial.
pub fn instance_of_trivial()
    ensures { (v : Vocabulary) (c e : Disjunction) → IsInstance v c e → IsTrivial c.lits → IsTrivial e.lits }
{}

/// What covers a clause covers each instance of it.
pub fn cover_of_instance()
    ensures { (v : Vocabulary) (m c e : Disjunction) → AreSorted v (scope_of c) c.lits → IsInstance v c e → Covers v m c
        → Covers v m e }
{}

/// An instance is empty only where the clause is.
pub fn empty_instance()
    ensures { (v : Vocabulary) (c e : Disjunction) → IsInstance v c e → e.lits ≡ [] → c.lits ≡ [] }
{}

/// The clauses of a formula are those that its paths reach, and no others.
pub fn clauses_by_paths()
    ensures listed { (a : Formula) (p : Way) (c : Disjunction) → reached p a ≡ Some c → IsIn c (clauses_in a) }
    ensures reached { (a : Formula) (c : Disjunction) → IsIn c (clauses_in a) → IsReached a c }
{}

/// A formula has as many clauses as its normal form counts.
pub fn clauses_are_counted()
    ensures { (a : Formula) (next : ℕ) → length (clauses_of a next) ≡ clause_count_of (norm_of true a) }
{}
