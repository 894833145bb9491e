//! Laws of the lines of a derivation that is found, shown by functions that do nothing.
ghost use Rattle.std.specs.Prelude.{◌≡◌, ◌<◌, ◌≤◌, ◌^◌, ℕ, List, true, length};
ghost use Rattle.std.specs.List.{All as Each, list_all};
ghost use Rattle.canon_print.specs.Canonical.{canonical_text};
ghost use Rattle.clause_rules.specs.Steps.{IsReady};
ghost use Rattle.derivation_order.specs.Graphs.{AreNames};
ghost use Rattle.fof_terms.specs.Vocabulary.{Vocabulary};
ghost use Rattle.limited_items.specs.Limits.{AreWithin};
ghost use Rattle.presented_texts.specs.Presented.{SpellsSame};
ghost use Rattle.printed_forms.specs.Words.{AreNamed, HasWords};
ghost use Rattle.printed_forms.specs.Written.{AreGivenListed};
ghost use Rattle.problem_proofs.specs.Found.{IsFound, vocabulary_of};
ghost use Rattle.problem_proofs.specs.Proved.{IsProved};
ghost use Rattle.problem_proofs.specs.declared.proved.Proved.TheVariants.{Proof};
ghost use Rattle.prove_out.specs.Unambiguous.{IsUnambiguous};
ghost use Rattle.refutation_lines.specs.declared.derivation.Derivation.{Derivation as Found};
ghost use Rattle.sort_check.specs.declared.line.GivenEntry.{GivenEntry as Entry};
ghost use Rattle.tptp_base.specs.Place.{is_no_line_feed};
ghost use Rattle.tptp_base.specs.declared.item.Item.{Item};
ghost use Rattle.tptp_base.specs.declared.read.TheConstants.{FILE_SIZE};
ghost use Rattle.tptp_commands.specs.Presented.{proof_text};
ghost use Rattle.writable_lines.specs.Written.{AreListed, CanBeWritten, HaveNames};

/// The names of the lines of a derivation that is found can be written, and so can the names in their sources, where
/// the names of the given formulas can.
pub fn lines_have_names()
    ensures { (v : Vocabulary) (given : List Entry) (limit : ℕ) (d : Found) → length given < 2 ^ 64 → limit < 2 ^ 32
        → AreNamed given → IsFound v given limit d → HaveNames d.lines }
{}

/// Given formulas whose names can be written have integers where their names are numbers.
pub fn written_names_are_names()
    ensures { (given : List Entry) → AreNamed given → AreNames given }
{}

/// No line of a derivation that is found has a conjunction or a disjunction of one member, where no given formula has.
pub fn no_line_has_a_list_of_one()
    ensures { (v : Vocabulary) (given : List Entry) (limit : ℕ) (d : Found) → AreGivenListed given
        → IsFound v given limit d → AreListed d.lines }
{}

/// The names of the vocabulary of a derivation that is found have spellings, where those of the problem have.
pub fn a_derivation_has_words()
    ensures { (v : Vocabulary) (given : List Entry) (limit : ℕ) (d : Found) → HasWords v → IsFound v given limit d
        → length (vocabulary_of v d).symbols ≤ 16777216 → HasWords (vocabulary_of v d) }
{}

/// The items of a derivation that is found, within the limits, can be written: if no two names of the problem are one
/// and all have spellings, and the given formulas are closed and well-sorted, have names that can be written, and have
/// no conjunction and no disjunction of one member.
pub fn items_can_be_written()
    ensures { (v : Vocabulary) (given : List Entry) (file : List ℕ) (limit : ℕ) (d : Found) (items : List Item)
        → length given < 2 ^ 64 → limit < 2 ^ 32 → IsUnambiguous v → HasWords v
        → Each (λ (g : Entry). IsReady v g.form) given → AreNamed given → AreGivenListed given
        → IsFound v given limit d → AreWithin file (vocabulary_of v d) (length v.symbols) given d.lines items
        → CanBeWritten file items }
{}

/// The text that presents items that can be written has a part that spells them, but for their places, where it is no
/// longer than a file may be.
pub fn a_derivation_is_spelled()
    ensures { (file status : List ℕ) (items : List Item) → list_all is_no_line_feed status ≡ true → 0 < length file
        → CanBeWritten file items → length (canonical_text items) ≤ FILE_SIZE
        → SpellsSame (proof_text file status items) items }
{}

/// So it is with the items of a proof of such a problem.
pub fn a_proof_is_spelled()
    ensures { (v : Vocabulary) (given : List Entry) (file status : List ℕ) (limit : ℕ) (items : List Item)
        → length given < 2 ^ 64 → limit < 2 ^ 32 → IsUnambiguous v → HasWords v
        → Each (λ (g : Entry). IsReady v g.form) given → AreNamed given → AreGivenListed given
        → list_all is_no_line_feed status ≡ true → 0 < length file → length (canonical_text items) ≤ FILE_SIZE
        → IsProved v given file limit (Proof items) → SpellsSame (proof_text file status items) items }
{}
