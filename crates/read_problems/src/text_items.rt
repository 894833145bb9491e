// What the text of a file denotes, whose items are taken one behind the other.
ghost use Rattle.std.specs.Prelude.{◌≡◌, ◌⊎◌, ◌∷◌, [], ℕ, Bool as truth, List as list, Ok, Err, IfOk, IfErr, IfSome};
ghost use Rattle.std.specs.Prelude.{count_by, length};
ghost use Rattle.tptp_base.specs.declared.item.Item.{Item as item_of};
ghost use Rattle.tptp_grammar.specs.declared.fault.GrammarFault.{GrammarFault as grammar_fault};
ghost use Rattle.tptp_grammar.specs.Texts.{IsParsed};
ghost use Rattle.tstp_graph.specs.Lines.{is_formula};
ghost use Rattle.sort_check.specs.Turns.{AreDenoted, HaveNoInclude};
ghost use Rattle.read_problems.specs.Answer.{ending_of};
ghost use Rattle.read_problems.specs.code.Turns.{IsOfItems, IsOfText, IsRefusalOfText, IsSortRefusal};
ghost use Rattle.read_problems.specs.Spelled.{IsLexed, SaysGrammarFault};
ghost use Rattle.read_problems.specs.Stop.{HasCause, IfRefused, IfStopped};

use crate::again::take_again;
use crate::denotations::Denotation;
use crate::denoted::say_sort_fault;
use crate::spelled::{read_tokens, say_grammar_fault};
use crate::stop::Halt;
use crate::taking::{Taken, take_all};
use sort_check::{Again, Denoted, SortFault};
use std::alloc::Global;
use tptp_base::{List, Memory, Text};
use tptp_lexer::Tokens;

/// What the text of the file denotes. Nothing where an include has to be replaced.
///
/// Its items are taken once, and once more where a type line stands behind another formula.
pub fn denote_text(
    alloc: Global,
    file: &str,
    text: &[u8],
    keeps: bool,
) -> Result<Option<Denotation>, Halt>
    ensures is { IfOk result (λ found. IfSome found (λ d. IsOfText text.now keeps d)) }
    ensures refused { IfRefused result (λ answer. IsRefusalOfText file.now text.now (ending_of answer)) }
    ensures status { IfRefused result (λ answer. (answer.status ≡ 3) ⊎ (answer.status ≡ 7)) }
    ensures cause { IfStopped result (λ stop. HasCause stop ⊥ ⊥) }
{
    let tokens = read_tokens(alloc, file, text)?;
    denote_tokens(alloc, file, text, &tokens, keeps)
}

// What the tokens of the text denote.
fn denote_tokens(
    alloc: Global,
    file: &str,
    text: &[u8],
    tokens: &Tokens<'_>,
    keeps: bool,
) -> Result<Option<Denotation>, Halt>
    requires { IsLexed text.now (Ok tokens.now) }
    ensures is { IfOk result (λ found. IfSome found (λ d. IsOfText text.now keeps d)) }
    ensures refused { IfRefused result (λ answer. IsRefusalOfText file.now text.now (ending_of answer)) }
    ensures status { IfRefused result (λ answer. (answer.status ≡ 3) ⊎ (answer.status ≡ 7)) }
    ensures cause { IfStopped result (λ stop. HasCause stop ⊥ ⊥) }
{
    match take_tokens(alloc, file, tokens, keeps) {
        Ok(Some(taken)) => denote_items(alloc, file, text, tokens, taken),
        Ok(None) => Ok(None),
        Err(halt) => Err(halt),
    }
}

// The items that the tokens spell, taken one behind the other.
fn take_tokens(
    alloc: Global,
    file: &str,
    tokens: &Tokens<'_>,
    keeps: bool,
) -> Result<Option<Taken>, Halt>
    ensures parsed { IfOk result (λ found. IfSome found (λ taken. IsParsed tokens.now (Ok taken.items.items))) }
    ensures keeps { IfOk result (λ found. IfSome found (λ taken. taken.items.keeps ≡ keeps)) }
    ensures refused { IfRefused result (λ answer. (fault : grammar_fault)
        × IsParsed tokens.now (Err fault) × SaysGrammarFault file.now fault (ending_of answer)) }
    ensures status { IfRefused result (λ answer. (answer.status ≡ 3) ⊎ (answer.status ≡ 7)) }
    ensures cause { IfStopped result (λ stop. HasCause stop ⊥ ⊥) }
{
    let none = Taken::nothing(alloc, keeps)?;
    match take_all(alloc, tokens, none) {
        Ok(found) => Ok(found),
        Err(fault) => Err(Halt::Refused(say_grammar_fault(alloc, file.as_bytes(), fault)?)),
    }
}

// What the items denote that the tokens of the text spell.
fn denote_items(
    alloc: Global,
    file: &str,
    text: &[u8],
    tokens: &Tokens<'_>,
    taken: Taken,
) -> Result<Option<Denotation>, Halt>
    requires lexed { IsLexed text.now (Ok tokens.now) }
    requires parsed { IsParsed tokens.now (Ok taken.items.items) }
    ensures is { IfOk result (λ found. IfSome found (λ d. IsOfText text.now taken.items.keeps d)) }
    ensures refused { IfRefused result (λ answer. IsRefusalOfText file.now text.now (ending_of answer)) }
    ensures status { IfRefused result (λ answer. (answer.status ≡ 3) ⊎ (answer.status ≡ 7)) }
    ensures cause { IfStopped result (λ stop. HasCause stop ⊥ ⊥) }
{
    if taken.items.is_late() {
        denote_late(alloc, file, text, tokens, taken)
    } else {
        denote_taken(alloc, file, text, tokens, taken)
    }
}

// What the items denote, whose type lines stand in front.
fn denote_taken(
    alloc: Global,
    file: &str,
    text: &[u8],
    tokens: &Tokens<'_>,
    taken: Taken,
) -> Result<Option<Denotation>, Halt>
    requires lexed { IsLexed text.now (Ok tokens.now) }
    requires parsed { IsParsed tokens.now (Ok taken.items.items) }
    ensures is { IfOk result (λ found. IfSome found (λ d. IsOfText text.now taken.items.keeps d)) }
    ensures refused { IfRefused result (λ answer. IsRefusalOfText file.now text.now (ending_of answer)) }
    ensures status { IfRefused result (λ answer. (answer.status ≡ 3) ⊎ (answer.status ≡ 7)) }
    ensures cause { IfStopped result (λ stop. HasCause stop ⊥ ⊥) }
{
    // The proof reads the tokens.
    let _tokens = tokens;
    let Taken { items, formulas } = taken;
    match items.finish() {
        Some(found) => tell_alone(alloc, file, text.len() as u64, formulas, found),
        None => Ok(None),
    }
}

// What the items denote, taken again behind all their type lines.
fn denote_late(
    alloc: Global,
    file: &str,
    text: &[u8],
    tokens: &Tokens<'_>,
    taken: Taken,
) -> Result<Option<Denotation>, Halt>
    requires lexed { IsLexed text.now (Ok tokens.now) }
    requires parsed { IsParsed tokens.now (Ok taken.items.items) }
    ensures is { IfOk result (λ found. IfSome found (λ d. IsOfText text.now taken.items.keeps d)) }
    ensures refused { IfRefused result (λ answer. IsRefusalOfText file.now text.now (ending_of answer)) }
    ensures status { IfRefused result (λ answer. (answer.status ≡ 3) ⊎ (answer.status ≡ 7)) }
    ensures cause { IfStopped result (λ stop. HasCause stop ⊥ ⊥) }
{
    let Taken { items, formulas } = taken;
    match items.again() {
        Some(again) => denote_again(alloc, file, text, tokens, formulas, again),
        None => Ok(None),
    }
}

// What the items denote, of which so many are formulas, and whose type lines are known.
fn denote_again(
    alloc: Global,
    file: &str,
    text: &[u8],
    tokens: &Tokens<'_>,
    formulas: usize,
    again: Again,
) -> Result<Option<Denotation>, Halt>
    requires lexed { IsLexed text.now (Ok tokens.now) }
    requires parsed { IsParsed tokens.now (Ok again.whole) }
    requires none { again.items ≡ [] }
    requires whole { HaveNoInclude again.whole }
    requires counted { formulas ≡ count_by is_formula again.whole }
    ensures is { IfOk result (λ found. IfSome found (λ d. IsOfText text.now again.keeps d)) }
    ensures refused { IfRefused result (λ answer. IsRefusalOfText file.now text.now (ending_of answer)) }
    ensures status { IfRefused result (λ answer. (answer.status ≡ 3) ⊎ (answer.status ≡ 7)) }
    ensures cause { IfStopped result (λ stop. HasCause stop ⊥ ⊥) }
{
    match take_again(alloc, tokens, again) {
        Ok(Some(found)) => tell_alone(alloc, file, text.len() as u64, formulas, found),
        Ok(None) => Ok(None),
        Err(fault) => Err(Halt::Refused(say_grammar_fault(alloc, file.as_bytes(), fault)?)),
    }
}

// What was found of the items of one file alone.
fn tell_alone(
    alloc: Global,
    file: &str,
    size: u64,
    formulas: usize,
    found: Result<Denoted, SortFault>,
) -> Result<Option<Denotation>, Halt>
    ensures is { IfOk result (λ told. IfSome told (λ d. (items : list item_of) (keeps : truth)
        → AreDenoted (record { items = items; keeps = keeps }) found → formulas ≡ count_by is_formula items
        → IsOfItems items keeps size d)) }
    ensures refused { IfRefused result (λ answer. (items : list item_of) (keeps : truth)
        → AreDenoted (record { items = items; keeps = keeps }) found
        → IsSortRefusal (file.now ∷ []) items (ending_of answer)) }
    ensures status { IfRefused result (λ answer. (answer.status ≡ 3) ⊎ (answer.status ≡ 7)) }
    ensures cause { IfStopped result (λ stop. HasCause stop ⊥ ⊥) }
{
    let files = one_file(alloc, file)?;
    tell(alloc, files.as_slice(), size, formulas, found)
}

// The one file.
fn one_file(alloc: Global, file: &str) -> Result<List<Text>, Memory>
    ensures { IfOk result (λ files. files ≡ file.now ∷ []) }
{
    let mut files = List::new(alloc);
    files.push(Text::from_slice(alloc, file.as_bytes())?)?;
    Ok(files)
}

/// What was found of items in these files, of so many bytes, of which so many are formulas.
pub fn tell(
    alloc: Global,
    files: &[Text],
    size: u64,
    formulas: usize,
    found: Result<Denoted, SortFault>,
) -> Result<Option<Denotation>, Halt>
    ensures is { IfOk result (λ told. IfSome told (λ d. (items : list item_of) (keeps : truth)
        → AreDenoted (record { items = items; keeps = keeps }) found → formulas ≡ count_by is_formula items
        → IsOfItems items keeps size d)) }
    ensures refused { IfRefused result (λ answer. (items : list item_of) (keeps : truth)
        → AreDenoted (record { items = items; keeps = keeps }) found
        → IsSortRefusal files.now items (ending_of answer)) }
    ensures status { IfRefused result (λ answer. (answer.status ≡ 3) ⊎ (answer.status ≡ 7)) }
    ensures cause { IfStopped result (λ stop. HasCause stop ⊥ ⊥) }
{
    match found {
        Ok(Denoted { lines, signature }) => Ok(Some(Denotation {
            lines,
            signature,
            formulas,
            read: size,
        })),
        Err(fault) => Err(Halt::Refused(say_sort_fault(alloc, files, fault)?)),
    }
}
