//! Laws of the check of what is found and printed, shown by functions that do nothing.
ghost use Rattle.std.specs.Prelude.{◌≡◌, ◌<◌, ◌^◌, ℕ, Bool, List, Ok, Option, Some, length, true};
ghost use Rattle.fof_terms.specs.Vocabulary.{Vocabulary};
ghost use Rattle.kernel.specs.Statements.{Statements};
ghost use Rattle.sort_check.specs.declared.line.GivenEntry.{GivenEntry as Entry};
ghost use Rattle.include_resolve.specs.Resolved.{Resolves};
ghost use Rattle.include_resolve.specs.declared.problem.Problem.{Problem as Whole};
ghost use Rattle.sort_check.specs.Given.{given_entries};
ghost use Rattle.sort_check.specs.Sorting.{AreGivenSorted};
ghost use Rattle.sort_check.specs.Texts.{denoted};
ghost use Rattle.sort_check.specs.declared.line.Line.{Line as Denoted};
ghost use Rattle.sort_check.specs.declared.line.TextKind.TheVariants as kind;
ghost use Rattle.read_problems.specs.Denoted.{first_vocabulary};
ghost use Rattle.read_problems.specs.Given.{given_theory};
ghost use Rattle.read_problems.specs.Sources.{given_names};
ghost use Rattle.tptp_base.specs.Store.{Files};
ghost use Rattle.tptp_base.specs.declared.item.Item.{Item};
ghost use Rattle.tptp_commands.specs.Presented.{proof_text};
ghost use Rattle.derivation_check.specs.Claim.{default_word};
ghost use Rattle.derivation_check.specs.Cases.{Asked, claimed};
ghost use Rattle.derivation_check.specs.Checks.{Checks, Stops};
ghost use Rattle.derivation_text.specs.Derivations.{IsDerivation, IsDerivationFault};
ghost use Rattle.derivation_text.specs.Wants.{IsWant};
ghost use Rattle.derivation_text.specs.declared.derivation.Derivation.{Derivation as Checked};
ghost use Rattle.derivation_text.specs.declared.fault.DerivationFault.{DerivationFault as Fault};
ghost use Rattle.refutation_lines.specs.declared.derivation.Derivation.{Derivation as Found};
ghost use Rattle.problem_proofs.specs.Found.{vocabulary_of};
ghost use Rattle.derivation_order.specs.Graphs.{names_of};
ghost use Rattle.proofs_are_verified.specs.Printed.{Asks, IsPosed, IsPrintedProof};
ghost use Rattle.proofs_are_verified.specs.Proofs.{IsAskedOf, IsProofOf};

/// What a problem gives, with all that it includes, is posed, where it is few formulas, closed and well-sorted.
pub fn a_problem_is_posed()
    ensures { (told : Option Files) (root : Option (List ℕ)) (file : List ℕ) (whole : Whole) (lines : List Denoted)
        (v : Vocabulary)
        → Resolves told root file (Ok whole) → denoted whole.items first_vocabulary kind.Problem ≡ Ok (lines, v)
        → AreGivenSorted v (given_entries lines) → length (given_entries lines) < 2 ^ 32
        → IsPosed v (given_entries lines) }
{}

/// The text of a proof claims the word of a proof, by whether the problem has a conjecture.
pub fn a_proof_text_claims_its_word()
    ensures { (file : List ℕ) (conjecture : Bool) (items : List Item)
        → claimed (proof_text file (default_word conjecture) items) ≡ Some (default_word conjecture) }
{}

/// The text of a proof that is found and printed is read as a derivation, over the vocabulary of the one that is found.
/// So no fault is found in it, where want of memory is none.
pub fn a_printed_proof_is_read()
    ensures is { (v : Vocabulary) (given : List Entry) (limit : ℕ) (file : List ℕ) (conjecture : Bool) (d : Found)
        (text : List ℕ) → IsPrintedProof v given limit file conjecture d text
        → (checked : Checked) × IsDerivation text (names_of given) v checked (vocabulary_of v d) }
    ensures no_fault { (v : Vocabulary) (given : List Entry) (limit : ℕ) (file : List ℕ) (conjecture : Bool)
        (d : Found) (text : List ℕ) → IsPrintedProof v given limit file conjecture d text
        → (fault : Fault) → IsDerivationFault text (names_of given) v fault → IsWant fault }
{}

/// A check of the text of a proof that is found and printed verifies all, and does not stop for want of room.
pub fn a_printed_proof_is_verified()
    ensures verified { (v : Vocabulary) (given : List Entry) (limit : ℕ) (file : List ℕ) (conjecture : Bool)
        (d : Found) (text : List ℕ) → IsPrintedProof v given limit file conjecture d text
        → (checked : Checked) (w : Vocabulary) → IsDerivation text (names_of given) v checked w
        → (asked : Asked) (t : Statements) → Asks given conjecture text asked t
        → (verified : Bool) (report log : List ℕ) → Checks asked t checked w verified report log → verified ≡ true }
    ensures room { (v : Vocabulary) (given : List Entry) (limit : ℕ) (file : List ℕ) (conjecture : Bool) (d : Found)
        (text : List ℕ) → IsPrintedProof v given limit file conjecture d text
        → (checked : Checked) (w : Vocabulary) → IsDerivation text (names_of given) v checked w
        → (asked : Asked) (t : Statements) → Asks given conjecture text asked t
        → (place : ℕ) (log : List ℕ) → Stops asked t checked w place log → ⊥ }
{}

/// The text of a proof of a problem is a derivation from what the problem gives, in which no fault is found, where want
/// of memory is none. Each check of it as `verify` makes it verifies all, and none stops for want of room.
pub fn a_proof_of_a_problem_is_verified()
    ensures is { (told : Option Files) (root : Option (List ℕ)) (file : List ℕ) (limit : ℕ) (lines : List Denoted)
        (v : Vocabulary) (text : List ℕ) → IsProofOf told root file limit lines v text
        → (checked : Checked) × (w : Vocabulary) × IsDerivation text (given_names lines) v checked w }
    ensures no_fault { (told : Option Files) (root : Option (List ℕ)) (file : List ℕ) (limit : ℕ)
        (lines : List Denoted) (v : Vocabulary) (text : List ℕ) → IsProofOf told root file limit lines v text
        → (fault : Fault) → IsDerivationFault text (given_names lines) v fault → IsWant fault }
    ensures verified { (told : Option Files) (root : Option (List ℕ)) (file : List ℕ) (limit : ℕ)
        (lines : List Denoted) (v : Vocabulary) (text : List ℕ) → IsProofOf told root file limit lines v text
        → (checked : Checked) (w : Vocabulary) → IsDerivation text (given_names lines) v checked w
        → (asked : Asked) → IsAskedOf lines text asked
        → (verified : Bool) (report log : List ℕ)
        → Checks asked (given_theory lines v) checked w verified report log → verified ≡ true }
    ensures room { (told : Option Files) (root : Option (List ℕ)) (file : List ℕ) (limit : ℕ) (lines : List Denoted)
        (v : Vocabulary) (text : List ℕ) → IsProofOf told root file limit lines v text
        → (checked : Checked) (w : Vocabulary) → IsDerivation text (given_names lines) v checked w
        → (asked : Asked) → IsAskedOf lines text asked
        → (place : ℕ) (log : List ℕ) → Stops asked (given_theory lines v) checked w place log → ⊥ }
{}
