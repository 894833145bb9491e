//! Laws of what the items of a derivation denote, shown by functions that do nothing.
ghost use Rattle.std.specs.Prelude.{◌≡◌, ℕ, List, [], Ok, length, map, true};
ghost use Rattle.std.specs.List.{All as Each};
ghost use Rattle.tptp_base.specs.declared.item.Item.{Item};
ghost use Rattle.tptp_base.specs.declared.name.Name.TheVariants.{Word};
ghost use Rattle.tptp_base.specs.declared.place.Place.{Place};
ghost use Rattle.fof_terms.specs.Sorts.{is_sorted};
ghost use Rattle.fof_terms.specs.Vocabulary.{Vocabulary};
ghost use Rattle.canon_print.specs.RoundTrip.{at_place, AreSame};
ghost use Rattle.clause_rules.specs.Steps.{IsReady};
ghost use Rattle.sort_check.specs.Symbols.{Text};
ghost use Rattle.sort_check.specs.Texts.{denoted};
ghost use Rattle.sort_check.specs.declared.line.GivenEntry.{GivenEntry};
ghost use Rattle.sort_check.specs.declared.line.Line.{Line as TextLine};
ghost use Rattle.sort_check.specs.declared.line.TextKind.{TextKind};
ghost use Rattle.sort_check.specs.declared.line.TextKind.TheVariants as text_kind;
ghost use Rattle.prove_out.specs.Unambiguous.{IsUnambiguous};
ghost use Rattle.derivation_items.specs.Items.{first_place};
ghost use Rattle.derivation_items.specs.Typings.{typings_of};
ghost use Rattle.derivation_items.specs.declared.line.ProofLine.{ProofLine as OwnLine};
ghost use Rattle.derivation_text.specs.Derivations.{denied_forms, names_of};
ghost use Rattle.refutation_lines.specs.declared.derivation.Derivation.{Derivation};
ghost use Rattle.limited_items.specs.Limits.{AreWithin};
ghost use Rattle.problem_proofs.specs.Found.{IsFound, vocabulary_of};
ghost use Rattle.derivation_sentences.specs.Denoted.{denoted_lines, lines_at};

/// Each line of a derivation that is found is closed and well-sorted over the vocabulary of the problem with the new
/// functions, where the given formulas are so over that of the problem.
pub fn lines_are_sorted()
    ensures { (v : Vocabulary) (given : List GivenEntry) (limit : ℕ) (d : Derivation)
        → Each (λ g. IsReady v g.form) given → IsFound v given limit d
        → Each (λ l. is_sorted (vocabulary_of v d) [] l.form ≡ true) d.lines }
{}

/// The items of a derivation that is found denote its lines, each by its name and its form, over the vocabulary of the
/// problem with the new functions: if the names of the problem's vocabulary say what they mean, and the given formulas
/// are closed and well-sorted.
pub fn items_denote_lines()
    ensures { (v : Vocabulary) (given : List GivenEntry) (file : Text) (limit : ℕ) (d : Derivation) (items : List Item)
        → IsUnambiguous v → Each (λ g. IsReady v g.form) given → IsFound v given limit d
        → AreWithin file (vocabulary_of v d) (length v.symbols) given d.lines items
        → denoted items v text_kind.Derivation
        ≡ Ok (denoted_lines (length (typings_of (vocabulary_of v d) (length v.symbols))) d.lines, vocabulary_of v d) }
{}

/// So do the items that its text is read as: those that are the same but for their places.
pub fn read_items_denote_lines()
    ensures { (v : Vocabulary) (given : List GivenEntry) (file : Text) (limit : ℕ) (d : Derivation)
        (items others : List Item)
        → IsUnambiguous v → Each (λ g. IsReady v g.form) given → IsFound v given limit d
        → AreWithin file (vocabulary_of v d) (length v.symbols) given d.lines items → AreSame others items
        → (lines : List TextLine)
        × (denoted others v text_kind.Derivation ≡ Ok (lines, vocabulary_of v d))
        × (lines_at first_place lines
        ≡ denoted_lines (length (typings_of (vocabulary_of v d) (length v.symbols))) d.lines) }
{}

/// Items that stand elsewhere denote the same, but for the places of their lines.
pub fn places_change_no_formula()
    ensures { (place : Place) (items : List Item) (v w : Vocabulary) (kind : TextKind) (lines : List TextLine)
        → denoted (map (at_place place) items) v kind ≡ Ok (lines, w)
        → (others : List TextLine) × (denoted items v kind ≡ Ok (others, w)) × (lines ≡ lines_at place others) }
{}

/// Lines that are those of a derivation but for their places have its names and forms, as a derivation's text has them.
pub fn read_lines_tell()
    ensures names { (place : Place) (number : ℕ) (read : List TextLine) (lines : List OwnLine)
        → lines_at place read ≡ denoted_lines number lines
        → names_of read ≡ map (λ (l : OwnLine). Word l.name) lines }
    ensures forms { (place : Place) (number : ℕ) (read : List TextLine) (lines : List OwnLine)
        → lines_at place read ≡ denoted_lines number lines
        → denied_forms read ≡ map (λ (l : OwnLine). l.form) lines }
{}
