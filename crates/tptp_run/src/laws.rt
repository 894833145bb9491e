//! Laws of what runs end with, shown by functions that do nothing. A run on words ends so by the clause `outcome` of
//! `run_tptp`, and the log of a success is a refutation by its clause `sound`.
ghost use Rattle.include_resolve.specs.Tried.{Tries};
ghost use Rattle.kernel.specs.Entries.{Refutes};
ghost use Rattle.kernel.specs.Statements.{Statements};
ghost use Rattle.kernel.specs.declared.entry.Entry.{Entry};
ghost use Rattle.proof_log.specs.Answers.{NestWithin};
ghost use Rattle.proof_log.specs.declared.reader.TheConstants.{MAX_NESTING};
ghost use Rattle.derivation_check.specs.Cases.{claimed};
ghost use Rattle.std.specs.Prelude.{◌≡◌, ◌⊎◌, ◌↔◌, ℕ, List, [], ◌∷◌, Some, length, codes, Option};
ghost use Rattle.tptp_base.specs.Store.{Files as StoreFiles, file_at};
ghost use Rattle.tptp_commands.specs.CheckedLog.{refuted};
ghost use Rattle.read_problems.specs.Given.{IsGiven};
ghost use Rattle.tptp_run.specs.Contradictory.{RefutesAxioms};
ghost use Rattle.read_problems.specs.Ending.{Ending};
ghost use Rattle.tptp_run.specs.Ends.{Ends};
ghost use Rattle.tptp_commands.specs.Formatted.{EndsFormat};
ghost use Rattle.tptp_commands.specs.Modelling.{IsModelled};
ghost use Rattle.tptp_run.specs.Outcome.{IsRefutation};
ghost use Rattle.tptp_commands.specs.Parsed.{EndsParse};
ghost use Rattle.tptp_commands.specs.Refuted.{IsInBudget, GivesTheSame, IsExact, IsRefused};
ghost use Rattle.tptp_run.specs.Verifying.{AreOfRuns, EndsVerify};
ghost use Rattle.tptp_commands.specs.Words.{Check, Model, Prove, Verify, Request, IsForm};

/// A check ends with status 0 exactly where the file has the text of a log, within the limits, whose entries refute
/// what the problem gives. A problem that has a fault gives nothing, and the fault is said.
pub fn a_check_is_exact()
    ensures { (files : StoreFiles) (words : List (List ℕ)) (request : Request) (problem log : List ℕ) (ending : Ending)
        → Ends files words ending → IsForm words request → request.task ≡ Check problem log
        → IsRefused files request.root problem ending ⊎ IsExact files request.root problem log ending }
{}

/// The command `model` ends with status 0 exactly where the problem resolves and denotes, the file has the text of a
/// model of its signature, within the limits, and all that the problem gives is true in it, its conjecture negated.
pub fn a_model_is_exact()
    ensures { (files : StoreFiles) (words : List (List ℕ)) (request : Request) (problem model : List ℕ)
        (ending : Ending)
        → Ends files words ending → IsForm words request → request.task ≡ Model problem model
        → (ending.status ≡ 0) ↔ IsModelled files request.root problem model }
{}

/// The log of a success, put into a store in which the same problem resolves alike, is found to refute the problem, if
/// it is within the limits: that of nesting, and that of the bytes that are read. So is the log in the same store,
/// under a name that the walk through the problem's files does not try.
pub fn a_verified_log_checks()
    ensures alike { (files after : StoreFiles) (words : List (List ℕ)) (request : Request) (problem log text : List ℕ)
        → (run : IsRefutation files request.root problem (Some List.[]) (Some text))
        → NestWithin MAX_NESTING run.entries
        → GivesTheSame files after request.root problem → file_at after log ≡ Some text
        → IsInBudget run.read (length text)
        → (ending : Ending) → Ends after words ending → IsForm words request → request.task ≡ Check problem log
        → ending ≡ refuted (length run.entries) }
    ensures beside { (files : StoreFiles) (words : List (List ℕ)) (request : Request) (problem log text : List ℕ)
        → (run : IsRefutation files request.root problem (Some List.[]) (Some text))
        → NestWithin MAX_NESTING run.entries
        → (Tries files request.root problem log → ⊥) → IsInBudget run.read (length text)
        → (ending : Ending) → Ends ((log, text) ∷ files) words ending → IsForm words request
        → request.task ≡ Check problem log
        → ending ≡ refuted (length run.entries) }
{}

/// Of what `prove` prints with status 0, `verify` may say that all is verified: in a store that has that text in a file
/// of any name, and in which the same problem resolves alike, `verify` of the problem and that file, with the same
/// limit, may end with status 0. And there are legal entries that lead from what the problem gives to falsehood.
pub fn a_proof_is_verified()
    ensures verified { (files : StoreFiles) (words : List (List ℕ)) (request : Request) (problem : List ℕ)
        (ending : Ending)
        → Ends files words ending → IsForm words request → request.task ≡ Prove problem → ending.status ≡ 0
        → (after : StoreFiles) (file : List ℕ)
        → GivesTheSame files after request.root problem → file_at after file ≡ Some ending.out
        → (again : Ending) × EndsVerify after request.root request.limit problem file again × (again.status ≡ 0) }
    ensures refuted { (files : StoreFiles) (words : List (List ℕ)) (request : Request) (problem : List ℕ)
        (ending : Ending)
        → Ends files words ending → IsForm words request → request.task ≡ Prove problem → ending.status ≡ 0
        → (theory : Statements) × (read : ℕ) × IsGiven (Some files) request.root problem theory read
        × ((entries : List Entry) × Refutes theory entries) }
{}

/// Where a derivation that claims that the axioms contradict each other is verified, the log refutes what the problem
/// gives without its conjecture: no entry cites a given formula of role conjecture or negated_conjecture.
pub fn contradictory_axioms_need_no_conjecture()
    ensures { (files : StoreFiles) (words : List (List ℕ)) (request : Request) (problem derivation text : List ℕ)
        (named : Option (List ℕ)) (ending : Ending)
        → Ends files words ending → IsForm words request → request.task ≡ Verify problem derivation named
        → ending.status ≡ 0
        → file_at files derivation ≡ Some text → claimed text ≡ Some (codes "ContradictoryAxioms")
        → RefutesAxioms files request.root problem ending.log }
{}

/// The problem in a file gives one theory, and its files have one number of bytes.
pub fn what_is_given_is_one()
    ensures { (files : StoreFiles) (root : Option (List ℕ)) (problem : List ℕ) (theory other : Statements)
        (read count : ℕ) →
        IsGiven (Some files) root problem theory read → IsGiven (Some files) root problem other count
        → (theory ≡ other) × (read ≡ count) }
{}

/// The command `parse` ends in one way.
pub fn parse_has_one_ending()
    ensures { (files : StoreFiles) (root : Option (List ℕ)) (file : List ℕ) (ending other : Ending) →
        EndsParse files root file ending → EndsParse files root file other → ending ≡ other }
{}

/// The command `format` ends in one way.
pub fn format_has_one_ending()
    ensures { (files : StoreFiles) (file : List ℕ) (ending other : Ending) →
        EndsFormat files file ending → EndsFormat files file other → ending ≡ other }
{}

/// The command `verify` ends in one way, with one status and one text on out, but where it runs the lines: then two
/// endings are of runs of one derivation over one theory. (Of such runs the one that goes by rules alone has one
/// report, but for another line two runs may choose different functions, and two searches may keep different clauses.)
pub fn verify_has_one_ending()
    ensures { (files : StoreFiles) (root : Option (List ℕ)) (limit : ℕ) (problem derivation : List ℕ)
        (ending other : Ending) →
        EndsVerify files root limit problem derivation ending → EndsVerify files root limit problem derivation other
        → ((ending.status ≡ other.status) × (ending.out ≡ other.out)) ⊎ AreOfRuns derivation ending other }
{}

/// Words ask for one request at most.
pub fn words_ask_for_one_request()
    ensures { (words : List (List ℕ)) (request other : Request) → IsForm words request → IsForm words other
        → request ≡ other }
{}
