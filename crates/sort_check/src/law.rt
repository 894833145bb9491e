//! Laws of the definitions. Their bodies are empty: what they say is in their contracts.
ghost use Rattle.std.specs.Prelude.{◌≡◌, true, false, Ok, List};
ghost use Rattle.tptp_base.specs.declared.item.Item.{Item};
ghost use Rattle.tptp_base.specs.declared.item.Lang.{Lang};
ghost use Rattle.tptp_base.specs.declared.surface.Surface.{Surface};
ghost use Rattle.tptp_base.specs.Names.{names_of_items};
ghost use Rattle.tptp_base.specs.Quotable.{AreQuotable};
ghost use Rattle.fof_terms.specs.Vocabulary.{Vocabulary};
ghost use Rattle.fof_terms.specs.declared.form.Form.{Form};
ghost use Rattle.sort_check.specs.declared.line.Line.{Line};
ghost use Rattle.sort_check.specs.declared.line.TextKind.{TextKind};
ghost use Rattle.sort_check.specs.declared.line.TextKind.TheVariants.{Problem, Derivation};
ghost use Rattle.sort_check.specs.Bringing.{Brings};
ghost use Rattle.sort_check.specs.Laws.{Answer, AreNoLarger, IsOne, HaveAnswer};
ghost use Rattle.sort_check.specs.Denotation.{formula};
ghost use Rattle.sort_check.specs.Symbols.{Text};
ghost use Rattle.sort_check.specs.Texts.{denoted, Gives};

/// Items denote lines or have a first fault, and never two of them.
pub fn one_answer()
    ensures some { (items : List Item) (v : Vocabulary) (kind : TextKind) → HaveAnswer items v kind }
    ensures one { (items : List Item) (v : Vocabulary) (kind : TextKind) (answer other : Answer)
        (new later : Vocabulary) →
        Gives (denoted items v kind) answer new → Gives (denoted items v kind) other later
        → IsOne answer new other later }
{}

/// What a text brings to a signature it names: where its names can be written between quotes, those of the further
/// sorts and symbols can. A further predicate has the result 0.
pub fn named_by_the_text()
    ensures { (items : List Item) (v w : Vocabulary) (kind : TextKind) (lines : List Line) →
        AreQuotable (names_of_items items) → denoted items v kind ≡ Ok (lines, w) → Brings v w }
{}

/// What items denote is no larger than they are.
pub fn lines_are_no_larger()
    ensures { (items : List Item) (v w : Vocabulary) (kind : TextKind) (lines : List Line) →
        denoted items v kind ≡ Ok (lines, w) → AreNoLarger items lines }
{}

/// A formula that denotes where each new symbol is one of individuals denotes the same where it has the sorts of its
/// place. So what denotes as a problem denotes the same as a derivation.
pub fn places_change_nothing()
    ensures of_formulas { (lang : Lang) (names : List Text) (a : Surface) (v w : Vocabulary) (form : Form) →
        formula false lang names a v ≡ Ok (form, w) → formula true lang names a v ≡ Ok (form, w) }
    ensures of_texts { (items : List Item) (v w : Vocabulary) (lines : List Line) →
        denoted items v Problem ≡ Ok (lines, w) → denoted items v Derivation ≡ Ok (lines, w) }
{}
