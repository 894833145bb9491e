// Laws of checks.
ghost use Rattle.std.specs.Prelude.{◌≡◌, ◌++◌, ◌<◌, ◌≤◌, ℕ, Bool, true, List, length, codes, None, Some};
ghost use Rattle.fof_terms.specs.Vocabulary.{Vocabulary};
ghost use Rattle.fof_terms.specs.declared.form.Form.{Form as Formula};
ghost use Rattle.kernel.specs.Entries.{Refutes};
ghost use Rattle.kernel.specs.Statements.{Statements};
ghost use Rattle.kernel.specs.declared.entry.Entry.{Entry as LogEntry};
ghost use Rattle.proof_log.specs.Entries.{AreLogged, log_text};
ghost use Rattle.sort_check.specs.Bringing.{Brings};
ghost use Rattle.tstp_graph.specs.Order.{TakesInTurn, is_taken, first_left};
ghost use Rattle.verifier.specs.Citing.{DoNotCite};
ghost use Rattle.verifier.specs.Marks.{is_marked};
ghost use Rattle.verifier.specs.Good.{HaveRoom};
ghost use Rattle.verifier.specs.Unsearched.{AreUnsearched};
ghost use Rattle.verifier.specs.declared.answer.LineAnswer.{LineAnswer as Answered};
ghost use Rattle.verifier.specs.declared.answer.Verdict.{Verdict as Ending};
ghost use Rattle.derivation_text.specs.declared.derivation.Derivation.{Derivation};
ghost use Rattle.derivation_check.specs.Cases as spec;
ghost use Rattle.derivation_check.specs.Checks.{Checks, Stops};
ghost use Rattle.derivation_check.specs.Endings.{IsVerdict};
ghost use Rattle.derivation_check.specs.GoodCases.{IsGoodCase};
ghost use Rattle.derivation_check.specs.declared.claiming.Claim.{Claim as Claimed};

/// Where a check verifies a derivation, its log is the text of entries that refute the given formulas.
pub fn a_verified_derivation_refutes()
    ensures { (asked : spec.Asked) (t : Statements) (d : Derivation) (w : Vocabulary) (report log : List ℕ)
        → Checks asked t d w true report log
        → (entries : List LogEntry) × (log ≡ log_text entries) × Refutes t entries }
{}

/// The log of a verified derivation can be read back, where the derivation names what it brings: so its entries are the
/// only ones that the log is the text of.
pub fn a_verified_log_can_be_read()
    ensures { (asked : spec.Asked) (t : Statements) (d : Derivation) (w : Vocabulary) (report log : List ℕ)
        → Checks asked t d w true report log → Brings t.vocabulary w
        → (entries : List LogEntry) × (log ≡ log_text entries) × Refutes t entries × AreLogged entries }
{}

/// Where a check verifies a derivation that claims that the axioms contradict each other, its log refutes the given
/// formulas without the conjecture: no entry cites a given formula of role conjecture or negated_conjecture, which are
/// those that are marked.
pub fn no_conjecture_is_cited()
    ensures { (asked : spec.Asked) (t : Statements) (d : Derivation) (w : Vocabulary) (report log : List ℕ)
        → Checks asked t d w true report log → spec.claimed asked.output ≡ Some (codes "ContradictoryAxioms")
        → (entries : List LogEntry) × (log ≡ log_text entries) × Refutes t entries
        × ((number : ℕ) → number < length t.formulas → is_marked asked.marks number ≡ true → DoNotCite number entries) }
{}

/// A check verifies each good derivation whose claim is justified by what its lines cite. The marks are those of given
/// formulas.
pub fn a_good_case_is_verified()
    ensures { (asked : spec.Asked) (t : Statements) (d : Derivation) (w : Vocabulary) (verified : Bool)
        (report log : List ℕ)
        → length asked.marks ≤ length t.formulas → TakesInTurn d.graph.nodes List.[] d.graph.order
        → first_left (is_taken d.graph.order) 0 d.graph.nodes ≡ None
        → IsGoodCase asked t d w → Checks asked t d w verified report log → verified ≡ true }
{}

/// A check of a good derivation does not stop for want of room.
pub fn a_good_case_has_room()
    ensures { (asked : spec.Asked) (t : Statements) (d : Derivation) (w : Vocabulary) (place : ℕ) (log : List ℕ)
        → TakesInTurn d.graph.nodes List.[] d.graph.order
        → IsGoodCase asked t d w → Stops asked t d w place log → ⊥ }
{}

/// A derivation that a check verifies by rules alone is good, where the texts leave room for each line, and its claim is
/// justified by what its lines cite. So of the derivations that rules alone give a check verifies exactly these.
pub fn a_verified_case_is_good()
    ensures { (asked : spec.Asked) (t : Statements) (d : Derivation) (w : Vocabulary) (report log : List ℕ)
        → length asked.marks ≤ length t.formulas → HaveRoom w (spec.lines_over t d asked.limit)
        → (c : Checks asked t d w true report log) → AreUnsearched c.answers → IsGoodCase asked t d w }
{}

/// A check that goes by rules alone has one verdict and one report, whatever the entries of its log are. The marks are
/// those of given formulas, and the order takes all lines.
pub fn a_check_has_one_report()
    ensures { (asked : spec.Asked) (t : Statements) (d : Derivation) (w : Vocabulary) (verified other : Bool)
        (report log again more : List ℕ)
        → length asked.marks ≤ length t.formulas → first_left (is_taken d.graph.order) 0 d.graph.nodes ≡ None
        → (c : Checks asked t d w verified report log) → Checks asked t d w other again more → AreUnsearched c.answers
        → (verified ≡ other) × (report ≡ again) }
{}

/// One verdict applies to a claim, the name of the problem, the formulas of the lines and the answers.
pub fn one_verdict_applies()
    ensures { (claim : Claimed) (problem : List ℕ) (forms : List Formula) (answers : List Answered)
        (verdict other : Ending)
        → IsVerdict claim problem forms answers verdict → IsVerdict claim problem forms answers other
        → verdict ≡ other }
{}
