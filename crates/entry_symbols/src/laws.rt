//! Laws of the symbols of entries, shown by functions that do nothing.
ghost use Rattle.std.specs.Prelude.{◌≡◌, ◌↔◌, ◌<◌, ◌≤◌, ℕ, List, false, length};
ghost use Rattle.std.specs.List.{AllByRecursion};
ghost use Rattle.clause_form.specs.declared.path.Parent.{Parent as Stated};
ghost use Rattle.elaborate.specs.declared.answer.Rule.{Rule};
ghost use Rattle.elaborate.specs.declared.answer.StepAnswer.TheVariants as step;
ghost use Rattle.fof_terms.specs.declared.form.Form.{Form as Formula};
ghost use Rattle.fof_terms.specs.declared.term.Term.{Term};
ghost use Rattle.fof_terms.specs.Occurs.{occurs_in, occurs_in_term};
ghost use Rattle.fof_terms.specs.Sorts.{Sorted};
ghost use Rattle.fof_terms.specs.Vocabulary.{Vocabulary};
ghost use Rattle.kernel.specs.Entries.{Admits};
ghost use Rattle.kernel.specs.Statements.{Statements};
ghost use Rattle.kernel.specs.declared.entry.Entry.{Entry as LogEntry};
ghost use Rattle.kernel.specs.declared.proof.Proof.{Proof as Tree};
ghost use Rattle.unify_terms.specs.declared.pair.Pair.{Pair};
ghost use Rattle.unify_terms.specs.Substitution.{image_at};
ghost use Rattle.unify_terms.specs.Unifiers.{IsMostGeneral};
ghost use Rattle.verifier.specs.Lines.{Derivation, Line as Placed};
ghost use Rattle.verifier.specs.Run.{AnswersLine, IsRun};
ghost use Rattle.verifier.specs.declared.answer.LineAnswer.{LineAnswer as Answered};
ghost use Rattle.entry_symbols.specs.Inside.{DoesNotTell, Lacks};
ghost use Rattle.entry_symbols.specs.Mentioned.{AreLegalAlike, IsForeign, IsInNoPair, IsShownWherever};
ghost use Rattle.entry_symbols.specs.Mentioned.{MentionDeclared, SpeakInside};

/// Each of some entries that are legal in turn mentions only symbols of the theory before all of them, and those that
/// entries before it declare: in its proof too.
pub fn legal_entries_mention_what_is_declared()
    ensures { (t u : Statements) (entries : List LogEntry) → Admits t entries u
        → MentionDeclared (length t.vocabulary.symbols) entries }
{}

/// So does each entry of a run: no line mentions what a search for a later line brings in.
pub fn a_run_mentions_what_is_declared()
    ensures { (start : Statements) (d : Derivation) (order : List ℕ) (answers : List Answered) (entries : List LogEntry)
        (end : Statements) → IsRun start d order answers entries end
        → MentionDeclared (length start.vocabulary.symbols) entries }
{}

/// The formulas of which the entries of an accepted line are names and choices have no symbol of the theory before them
/// but those of what the line is said to cite and of the line, and no other such symbol is a name.
pub fn an_accepted_line_tells_of_what_it_cites()
    ensures { (t : Statements) (d : Derivation) (line : Placed) (parents : List Stated) (rule : Rule)
        (cites : List ℕ) (entries : List LogEntry) (k : ℕ)
        → AnswersLine t d line parents (step.Accepted rule cites entries) → IsForeign t cites line.form k
        → AllByRecursion (DoesNotTell k) entries }
{}

/// That an accepted line speaks inside its entries of what it cites and of itself alone is the same as that its entries
/// are legal whatever the other symbols of the theory are.
pub fn an_accepted_line_speaks_inside_where_others_may_change()
    ensures { (t : Statements) (d : Derivation) (line : Placed) (parents : List Stated) (rule : Rule)
        (cites : List ℕ) (entries : List LogEntry)
        → AnswersLine t d line parents (step.Accepted rule cites entries)
        → AreLegalAlike t cites line.form entries ↔ SpeakInside t cites line.form entries }
{}

/// A proof that shows a formula wherever another one is well-sorted states no symbol but those of the other one. So it is
/// with the proofs between a formula and its normal form or its flat form.
pub fn what_is_shown_wherever_has_its_symbols()
    ensures { (w : Vocabulary) (v : List ℕ) (a b : Formula) (p : Tree) (k : ℕ) → length v ≤ 1000000000 → Sorted w v a
        → IsShownWherever a b p → occurs_in k a ≡ false → Lacks k p }
{}

/// A symbol that stands in no pair stands in no image of a most general unifier.
pub fn a_most_general_unifier_has_the_symbols_of_its_pairs()
    ensures { (v : Vocabulary) (sorts : List ℕ) (rigid : ℕ) (pairs : List Pair) (images : List Term) (k j : ℕ)
        → IsMostGeneral v sorts rigid pairs images → IsInNoPair k pairs → j < length sorts
        → occurs_in_term k (image_at images j) ≡ false }
{}
