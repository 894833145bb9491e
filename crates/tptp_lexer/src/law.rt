//! Laws of the definitions. Their bodies are empty: what they say is in their contracts.
ghost use Rattle.std.specs.Prelude.{◌≡◌, ℕ, List, Result};
ghost use Rattle.tptp_base.specs.declared.place.Region.{Region};
ghost use Rattle.tptp_lexer.specs.declared.fault.LexFault.{LexFault};
ghost use Rattle.tptp_lexer.specs.declared.style.Style.{Style};
ghost use Rattle.tptp_lexer.specs.declared.token.Token.{Token};
ghost use Rattle.tptp_lexer.specs.declared.token.Tokens.{Tokens};
ghost use Rattle.tptp_lexer.specs.Answer.{IsWithin, Answers, IsOne, HasAnswer};
ghost use Rattle.tptp_lexer.specs.Bytes.{Text};
ghost use Rattle.tptp_lexer.specs.Tokenized.{Tokenized};

/// A text has at most one token list.
pub fn one_token_list()
    ensures { (style : Style) (text : Text) (tokens others : List Token) →
        Tokenized style text tokens → Tokenized style text others → tokens ≡ others }
{}

/// A region of a text has tokens or one of the faults, and never two of them.
pub fn one_answer()
    ensures some { (file : ℕ) (text : Text) (region : Region) (style : Style) →
        IsWithin text region → HasAnswer file text region style }
    ensures one { (file : ℕ) (text : Text) (region : Region) (style : Style) (answer other : Result Tokens LexFault) →
        Answers file text region style answer → Answers file text region style other → IsOne answer other }
{}
