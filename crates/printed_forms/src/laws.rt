//! Laws of the formulas that a derivation prints, shown by functions that do nothing.
ghost use Rattle.std.specs.Prelude.{◌≡◌, Bool, List, Ok, ℕ, true};
ghost use Rattle.clause_form.specs.ClauseView.{closed};
ghost use Rattle.clause_form.specs.Clauses.{skolemized};
ghost use Rattle.clause_form.specs.Norm.{norm_of};
ghost use Rattle.clause_form.specs.declared.clause.Clause.{Clause as Literals};
ghost use Rattle.fof_terms.specs.declared.form.Form.{Form as Formula};
ghost use Rattle.fof_terms.specs.Vocabulary.{Vocabulary};
ghost use Rattle.printed_forms.specs.Lists.{has_no_list_of_one};
ghost use Rattle.printed_forms.specs.Written.{AreGivenListed, AreItemsListed, AreLinesListed};
ghost use Rattle.sort_check.specs.Given.{given_entries};
ghost use Rattle.sort_check.specs.Texts.{denoted};
ghost use Rattle.sort_check.specs.declared.line.Line.{Line as Denoted};
ghost use Rattle.sort_check.specs.declared.line.TextKind.{TextKind as Kind};
ghost use Rattle.tptp_base.specs.declared.item.Item.{Item as AnyItem};
ghost use Rattle.tptp_grammar.specs.Files.{Spells};
ghost use Rattle.tptp_grammar.specs.Solid.{Placed};
ghost use Rattle.tptp_lexer.specs.declared.style.Style.{Style as TextStyle};

/// The normal form of a formula, and that of its negation, has no conjunction and no disjunction of one member.
pub fn a_normal_form_has_no_list_of_one()
    ensures { (g : Bool) (a : Formula) → has_no_list_of_one (norm_of g a) ≡ true }
{}

/// Functions in place of existential variables leave each conjunction and each disjunction as many members as it had.
pub fn new_functions_keep_lists()
    ensures { (a : Formula) (next : ℕ) → has_no_list_of_one (skolemized a next) ≡ has_no_list_of_one a }
{}

/// The formula that a clause stands for has no conjunction and no disjunction of one member.
pub fn a_clause_has_no_list_of_one()
    ensures { (c : Literals) → has_no_list_of_one (closed c) ≡ true }
{}

/// What tokens spell writes no conjunction and no disjunction of one member, in either style of texts.
pub fn what_is_spelled_has_no_list_of_one()
    ensures { (style : TextStyle) (items : List AnyItem) (tokens : List Placed) → Spells style items tokens
        → AreItemsListed items }
{}

/// Items that write none denote formulas that have none, and so has each formula that these give: the negation of a
/// conjecture too.
pub fn what_is_denoted_has_no_list_of_one()
    ensures lines { (items : List AnyItem) (v w : Vocabulary) (kind : Kind) (lines : List Denoted)
        → AreItemsListed items → denoted items v kind ≡ Ok (lines, w) → AreLinesListed lines }
    ensures given { (lines : List Denoted) → AreLinesListed lines → AreGivenListed (given_entries lines) }
{}
