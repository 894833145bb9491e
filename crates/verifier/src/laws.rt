// Laws of runs.
ghost use Rattle.std.specs.Prelude.{◌≡◌, ◌↔◌, ◌++◌, ◌<◌, ◌≤◌, ℕ, Bool, true, false, List, [], length, map, None};
ghost use Rattle.std.specs.List.{All as Each};
ghost use Rattle.clause_form.specs.declared.path.Parent.{Parent as Stated};
ghost use Rattle.elaborate.specs.declared.answer.Rule.{Rule};
ghost use Rattle.elaborate.specs.declared.answer.StepAnswer.TheVariants as step;
ghost use Rattle.kernel.specs.Entries.{Admits, IsFresh, Refutes};
ghost use Rattle.kernel.specs.Statements.{Statements};
ghost use Rattle.kernel.specs.declared.entry.Entry.{Entry as LogEntry};
ghost use Rattle.tstp_graph.specs.declared.shape.Ref.{Ref as Cited};
ghost use Rattle.tstp_graph.specs.Order.{TakesInTurn, is_taken, first_left};
ghost use Rattle.verifier.specs.declared.answer.Verdict.{Verdict as Ending};
ghost use Rattle.verifier.specs.Citing.{DoNotCite};
ghost use Rattle.verifier.specs.Marks.{cites_marked, is_marked, some_marked_ref};
ghost use Rattle.verifier.specs.Closing.{Closes, IsVerified};
ghost use Rattle.verifier.specs.Good.{HaveRoom, IsGood};
ghost use Rattle.verifier.specs.Lines.{Derivation, Line as Placed};
ghost use Rattle.verifier.specs.Report.{HasFalse, AreAccepted, said_of};
ghost use Rattle.verifier.specs.Run.{AnswersLine, IsRun, IsStopped};
ghost use Rattle.verifier.specs.Symbols.{IsUnusedIn};
ghost use Rattle.verifier.specs.Unsearched.{AreUnsearched};
ghost use Rattle.verifier.specs.declared.answer.LineAnswer.{LineAnswer as Answered};

/// Where entries lead from a theory to the one that a run begins from, all lines of the run are accepted, and one of
/// them is falsehood, the entries, those of the run and the last one for its verdict refute the theory.
pub fn a_verified_run_refutes()
    ensures falsehood { (start : Statements) (d : Derivation) (order : List ℕ) (answers : List Answered)
        (entries : List LogEntry) (end : Statements)
        → length d.forms ≡ length d.nodes → first_left (is_taken order) 0 d.nodes ≡ None
        → IsRun start d order answers entries end
        → AreAccepted answers → HasFalse d.forms → HasFalse end.formulas }
    ensures refutes { (t start : Statements) (before : List LogEntry) (d : Derivation) (order : List ℕ)
        (answers : List Answered) (entries : List LogEntry) (end : Statements) (verdict : Ending) (last : List LogEntry)
        → Admits t before start → (run : IsRun start d order answers entries end) → IsVerified verdict
        → Closes verdict d.forms run.numbers last → Refutes t (before ++ entries ++ last) }
{}

/// Of the formulas that stand in the theory before the entries of an accepted line, the entries cite none but those
/// that the line is said to cite.
pub fn a_line_cites_what_is_said()
    ensures { (t : Statements) (d : Derivation) (line : Placed) (parents : List Stated) (rule : Rule)
        (cites : List ℕ) (entries : List LogEntry) (number : ℕ)
        → AnswersLine t d line parents (step.Accepted rule cites entries) → number < length t.formulas
        → Each (λ cited. cited ≡ number → ⊥) cites → DoNotCite number entries }
{}

/// Of the formulas that a run begins with and that are marked, the log cites none, where no line cites a marked one:
/// neither the entries of the run do, nor the last one for its verdict.
pub fn a_run_cites_what_its_lines_cite()
    ensures { (start : Statements) (d : Derivation) (order : List ℕ) (answers : List Answered) (entries : List LogEntry)
        (end : Statements) (verdict : Ending) (last : List LogEntry) (marks : List Bool) (number : ℕ)
        → (run : IsRun start d order answers entries end) → Closes verdict d.forms run.numbers last
        → cites_marked marks answers ≡ false → number < length start.formulas → is_marked marks number ≡ true
        → DoNotCite number (entries ++ last) }
{}

/// A symbol of those that a run begins with is new to all formulas of the theory behind the run exactly where it stands
/// in nothing that is given and in no accepted line. So what searches bring in makes no symbol of the texts old.
pub fn a_run_speaks_of_its_lines()
    ensures { (start : Statements) (d : Derivation) (order : List ℕ) (answers : List Answered) (entries : List LogEntry)
        (end : Statements) (k : ℕ)
        → start.formulas ≡ d.given → k < length start.vocabulary.symbols → IsRun start d order answers entries end
        → IsFresh k end ↔ IsUnusedIn k d order answers }
{}

/// A run of a good derivation accepts each line, and where nothing is marked that the lines cite by their texts, no
/// answer cites a formula that is marked.
pub fn a_good_derivation_is_accepted()
    ensures accepted { (start : Statements) (d : Derivation) (order : List ℕ) (cites : List Cited)
        (answers : List Answered) (entries : List LogEntry) (end : Statements)
        → start.formulas ≡ d.given → IsGood start.vocabulary d order cites → TakesInTurn d.nodes [] order
        → first_left (is_taken order) 0 d.nodes ≡ None
        → IsRun start d order answers entries end → AreAccepted answers }
    ensures unmarked { (start : Statements) (d : Derivation) (order : List ℕ) (cites : List Cited)
        (answers : List Answered) (entries : List LogEntry) (end : Statements) (marks : List Bool)
        → start.formulas ≡ d.given → IsGood start.vocabulary d order cites → TakesInTurn d.nodes [] order
        → first_left (is_taken order) 0 d.nodes ≡ None
        → IsRun start d order answers entries end → length marks ≤ length d.given → some_marked_ref marks cites ≡ false
        → cites_marked marks answers ≡ false }
{}

/// A run of a good derivation does not stop, where the symbols that it begins with leave room for each line.
pub fn a_good_derivation_has_room()
    ensures { (start : Statements) (d : Derivation) (order : List ℕ) (cites : List Cited) (place : ℕ)
        (entries : List LogEntry) (end : Statements)
        → start.formulas ≡ d.given → IsGood start.vocabulary d order cites → TakesInTurn d.nodes [] order
        → HaveRoom start.vocabulary d → IsStopped start d order place entries end → ⊥ }
{}

/// A derivation is good where a run accepts each line by a rule and one of them is falsehood. Where no answer cites a
/// formula that is marked, the lines cite none that is marked by their texts. So of the derivations that rules alone give
/// the law on good ones asks for no more than is found.
pub fn an_accepted_derivation_is_good()
    ensures { (start : Statements) (d : Derivation) (order : List ℕ) (answers : List Answered) (entries : List LogEntry)
        (end : Statements)
        → start.formulas ≡ d.given → IsRun start d order answers entries end → AreAccepted answers
        → AreUnsearched answers → HasFalse d.forms
        → (cites : List Cited) × IsGood start.vocabulary d order cites
        × ((marks : List Bool) → length marks ≤ length d.given → cites_marked marks answers ≡ false
        → some_marked_ref marks cites ≡ false) }
{}

/// Two runs of a derivation from one theory, the first of which goes by rules alone, answer each line alike: what is said
/// of it is the same, and a formula that is marked is cited in the one exactly where it is cited in the other. Their
/// entries may differ. (Of other lines the functions that two runs choose, and the lists of clauses that their searches
/// keep, may differ, and with them what is found.)
pub fn a_run_has_one_report()
    ensures said { (start : Statements) (d : Derivation) (order : List ℕ) (answers others : List Answered)
        (entries more : List LogEntry) (end last : Statements)
        → start.formulas ≡ d.given → first_left (is_taken order) 0 d.nodes ≡ None → AreUnsearched answers
        → IsRun start d order answers entries end → IsRun start d order others more last
        → map said_of answers ≡ map said_of others }
    ensures marked { (start : Statements) (d : Derivation) (order : List ℕ) (answers others : List Answered)
        (entries more : List LogEntry) (end last : Statements) (marks : List Bool)
        → start.formulas ≡ d.given → first_left (is_taken order) 0 d.nodes ≡ None → AreUnsearched answers
        → IsRun start d order answers entries end → IsRun start d order others more last → length marks ≤ length d.given
        → cites_marked marks answers ≡ cites_marked marks others }
{}
