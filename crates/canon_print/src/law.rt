//! Laws of the canonical text. Their bodies are empty: what they say is in their contracts.
ghost use Rattle.std.specs.Prelude.{◌≡◌, ◌≤◌, ℕ, List, Result, length};
ghost use Rattle.tptp_base.specs.declared.item.Item.{Item};
ghost use Rattle.tptp_base.specs.declared.read.TheConstants.{FILE_SIZE};
ghost use Rattle.tptp_lexer.specs.declared.fault.LexFault.{LexFault};
ghost use Rattle.tptp_lexer.specs.declared.style.Style.{Style};
ghost use Rattle.tptp_lexer.specs.declared.token.Tokens.{Tokens};
ghost use Rattle.tptp_lexer.specs.Answer.{Answers, whole};
ghost use Rattle.tptp_lexer.specs.Bytes.{Text};
ghost use Rattle.tptp_grammar.specs.Faults.{max_nesting};
ghost use Rattle.canon_print.specs.Canonical.{canonical_text};
ghost use Rattle.canon_print.specs.RoundTrip.{AreSame, TextSpells, SpellsAgain, ReadsAs};

/// What some text spells, the canonical text spells again, but for the places of the items. It nests no deeper than
/// any text that spells them.
pub fn read_again()
    ensures { (style : Style) (file limit : ℕ) (items : List Item) (text : Text) →
        TextSpells style file limit items text → SpellsAgain style file limit items (canonical_text items) }
{}

/// A text spells one list of items in a file.
pub fn one_reading()
    ensures { (style : Style) (file limit more : ℕ) (items others : List Item) (text : Text) →
        TextSpells style file limit items text → TextSpells style file more others text → items ≡ others }
{}

/// What the canonical text spells are the items that it was made of, but for their places, and these have the same
/// canonical text again.
pub fn read_only()
    ensures same { (style : Style) (file limit more : ℕ) (items others : List Item) (text : Text) →
        TextSpells style file limit items text → TextSpells style file more others (canonical_text items) → AreSame others items }
    ensures again { (style : Style) (file limit more : ℕ) (items others : List Item) (text : Text) →
        TextSpells style file limit items text → TextSpells style file more others (canonical_text items) →
        canonical_text others ≡ canonical_text items }
{}

/// Items that differ in their places alone have one canonical text: printed again, it is the same bytes.
pub fn one_text()
    ensures { (items others : List Item) → AreSame items others → canonical_text items ≡ canonical_text others }
{}

/// What some text spells within the greatest nesting, `tokens` and `parse` read from the canonical text again, but for
/// the places of the items, where that text is no longer than a file may be and memory is not wanting.
pub fn reads_back()
    ensures { (style : Style) (file : ℕ) (items : List Item) (text : Text) (answer : Result Tokens LexFault) →
        TextSpells style file max_nesting items text → length (canonical_text items) ≤ FILE_SIZE →
        Answers file (canonical_text items) (whole (canonical_text items)) style answer → ReadsAs items answer }
{}
