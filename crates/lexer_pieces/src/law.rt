//! A law of lexers that take pieces, shown by a function that does nothing.
ghost use Rattle.std.specs.Prelude.{◌≡◌, ◌≤◌, ℕ, List, ◌++◌, length, None, Err};
ghost use Rattle.std.specs.List.{concat};
ghost use Rattle.tptp_base.specs.declared.place.Place.{Place};
ghost use Rattle.tptp_base.specs.declared.read.TheConstants.{FILE_SIZE};
ghost use Rattle.tptp_lexer.specs.Answer.{Answers, whole};
ghost use Rattle.tptp_lexer.specs.Bytes.{Text};
ghost use Rattle.tptp_lexer.specs.declared.fault.LexFault.TheVariants.{Byte};
ghost use Rattle.tptp_lexer.specs.declared.style.Style.{Style};
ghost use Rattle.lexer_pieces.specs.Pieces.{Fed, Shows, TakesAll, unfed};

/// However a text is cut: the pieces that a lexer takes are the text that it is finished with. A place that the pieces
/// show as a fault is the fault of each text within the limit that begins with them.
pub fn however_a_text_is_cut()
    ensures taken { (file : ℕ) (style : Style) (pieces : List Text) (fed : Fed)
        → TakesAll (unfed file style) pieces fed
        → (fed.file ≡ file) × (fed.style ≡ style) × (fed.text ≡ concat pieces) × (fed.fault ≡ None) }
    ensures shown { (file : ℕ) (style : Style) (text more : Text) (place : Place) → Shows file style text (Byte place)
        → length (text ++ more) ≤ FILE_SIZE
        → Answers file (text ++ more) (whole (text ++ more)) style (Err (Byte place)) }
{}
