// Elements, and symbols at elements.
ghost use Rattle.std.specs.Prelude.{◌≡◌};
ghost use Rattle.fi_model.specs.Sentences as spec;

use crate::arguments::Arguments;
use crate::distinct::{is_distinct, object};
use crate::sentence::{Element, Entry, Value};
use tptp_base::STerm;
use tptp_lexer::Word;

/// The element that a term is.
#[tactic(auto, using(crate::proofs::Layers::term_layers))]
pub fn element(term: &STerm) -> Option<Element<'_>>
    ensures { result ≡ spec.element term.now }
{
    match term {
        STerm::Var(_) => None,
        STerm::App(word, args) => element_word(word.as_slice(), args.as_slice()),
    }
}

// The element that a word with these arguments is.
fn element_word<'a>(word: &'a [u8], args: &[STerm]) -> Option<Element<'a>>
    ensures { result ≡ spec.element_word word.now args.now }
{
    if !args.is_empty() {
        return None;
    }
    match object(word) {
        Some(name) => Some(Element {
            name: Word::new(name),
        }),
        None => None,
    }
}

/// The entry of a word at elements.
pub fn applied<'a>(value: Value<'a>, word: &'a [u8], args: &'a [STerm]) -> Option<Entry<'a>>
    ensures { result ≡ spec.applied value.entry word.now args.now }
{
    if is_distinct(word) {
        return None;
    }
    match Arguments::new(args) {
        Some(args) => Some(Entry {
            name: Word::new(word),
            args,
            value,
        }),
        None => None,
    }
}
