//! Laws of the definitions. Their bodies are empty: what they say is in their contracts.
ghost use Rattle.std.specs.Prelude.{◌≡◌, ℕ, List, Result, length};
ghost use Rattle.tptp_base.specs.declared.item.Item.{Item};
ghost use Rattle.tptp_base.specs.declared.place.Place.{Place};
ghost use Rattle.tptp_base.specs.declared.place.Region.{Region};
ghost use Rattle.tptp_base.specs.Names.{names_of_items};
ghost use Rattle.tptp_base.specs.Quotable.{AreQuotable};
ghost use Rattle.tptp_base.specs.Sizes.{IsWithin, size_of_items};
ghost use Rattle.tptp_lexer.specs.declared.style.Style.{Style};
ghost use Rattle.tptp_lexer.specs.Answer.{part};
ghost use Rattle.tptp_lexer.specs.Bytes.{Text};
ghost use Rattle.tptp_lexer.specs.Tokenized.{Cut, placed};
ghost use Rattle.tptp_grammar.specs.declared.fault.GrammarFault.{GrammarFault};
ghost use Rattle.tptp_grammar.specs.Answers.{Answers};
ghost use Rattle.tptp_grammar.specs.Files.{Spells};
ghost use Rattle.tptp_grammar.specs.Laws.{IsOne, HasAnswer, PartSpells};
ghost use Rattle.tptp_grammar.specs.Solid.{Placed};

/// Tokens spell items or have a first fault, and never two of them.
pub fn one_answer()
    ensures some { (style : Style) (tokens : List Placed) (end : Place) → HasAnswer style tokens end }
    ensures one { (style : Style) (tokens : List Placed) (end : Place) (answer other : Result (List Item) GrammarFault) →
        Answers style tokens end answer → Answers style tokens end other → IsOne answer other }
{}

/// The names that items have can be written between quotes, if the tokens of a part of a text spell the items: they are
/// words of the text, and so have printable bytes alone.
pub fn names_are_quotable()
    ensures { (style : Style) (file : ℕ) (whole : Text) (at : ℕ) (text : Text) (tokens : List Placed) (end : ℕ)
        (rest : Text) (items : List Item) →
        Cut style (placed file whole) at text tokens end rest → Spells style items tokens
        → AreQuotable (names_of_items items) }
{}

/// A list of tokens spells at most one list of items. So does a text, or a part of one, in either style.
pub fn one_list_of_items()
    ensures of_tokens { (style : Style) (tokens : List Placed) (items others : List Item) →
        Spells style items tokens → Spells style others tokens → items ≡ others }
    ensures of_texts { (style : Style) (file : ℕ) (text : Text) (region : Region) (items others : List Item) →
        PartSpells style file text region items → PartSpells style file text region others → items ≡ others }
{}

/// Items are no larger than what spells them. No list in them has more members than there are tokens, and they have no
/// more variables; and a text has no more tokens than bytes.
pub fn items_are_within_their_text()
    ensures of_tokens { (style : Style) (tokens : List Placed) (items : List Item) →
        Spells style items tokens → IsWithin (length tokens) (size_of_items items) }
    ensures of_texts { (style : Style) (file : ℕ) (text : Text) (region : Region) (items : List Item) →
        PartSpells style file text region items → IsWithin (length (part text region)) (size_of_items items) }
{}
