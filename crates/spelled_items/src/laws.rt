//! Laws of the items of a derivation, shown by functions that do nothing.
ghost use Rattle.std.specs.Prelude.{◌≡◌, ◌<◌, ◌≤◌, ◌++◌, ℕ, List, true, length};
ghost use Rattle.std.specs.List.{list_all};
ghost use Rattle.canon_print.specs.Canonical.{canonical_text};
ghost use Rattle.canon_print.specs.RoundTrip.{SpellsAgain};
ghost use Rattle.derivation_items.specs.Items.{typing_items};
ghost use Rattle.derivation_items.specs.Typings.{typings_of};
ghost use Rattle.derivation_limits.specs.Nesting.{nesting_of};
ghost use Rattle.fof_terms.specs.Vocabulary.{Vocabulary};
ghost use Rattle.fof_terms.specs.declared.form.Form.{Form as Formula};
ghost use Rattle.printed_forms.specs.Lists.{has_no_list_of_one};
ghost use Rattle.printed_forms.specs.Words.{HasWords};
ghost use Rattle.prove_out.specs.Denoting.{Denotes};
ghost use Rattle.prove_out.specs.Variables.{is_numbered};
ghost use Rattle.spelled_items.specs.Spelled.{IsSpelledWithin};
ghost use Rattle.spelled_items.specs.Writable.{AreWritable, is_formula, is_typing};
ghost use Rattle.tptp_base.specs.declared.item.Item.{Item as AnyItem};
ghost use Rattle.tptp_base.specs.declared.item.Typing.{Typing as TypeLine};
ghost use Rattle.tptp_base.specs.declared.surface.Surface.{Surface as Written};
ghost use Rattle.tptp_grammar.specs.Faults.{max_nesting};
ghost use Rattle.tptp_lexer.specs.declared.style.Style.TheVariants.{Derivation as DerivationStyle};

/// A formula that can be written is spelled by tokens, none of which is nested deeper than is said of the formula.
pub fn a_formula_is_spelled()
    ensures { (formula : Written) → is_formula formula ≡ true → IsSpelledWithin (nesting_of formula) formula }
{}

/// The canonical text of type lines and lines that can be written spells them, but for their places, and nests no deeper
/// than a text may.
pub fn a_canonical_text_spells_its_items()
    ensures { (number : ℕ) (file : List ℕ) (typings : List TypeLine) (lines : List AnyItem)
        → 0 < length file → length typings ≤ 1048576 → list_all is_typing typings ≡ true → AreWritable file lines
        → SpellsAgain DerivationStyle number max_nesting (typing_items 0 typings ++ lines)
        (canonical_text (typing_items 0 typings ++ lines)) }
{}

/// The type lines of a vocabulary whose names have spellings can be written.
pub fn type_lines_can_be_written()
    ensures { (v : Vocabulary) (first : ℕ) → HasWords v → list_all is_typing (typings_of v first) ≡ true }
{}

/// A formula that numbers its variables and denotes a form can be written: where the form has no conjunction and no
/// disjunction of one member, and the names of the vocabulary have spellings.
pub fn what_denotes_can_be_written()
    ensures { (v : Vocabulary) (form : Formula) (formula : Written) → HasWords v → has_no_list_of_one form ≡ true
        → Denotes v formula form → is_numbered 0 formula ≡ true → is_formula formula ≡ true }
{}
