// Distinct objects in the items of a model's text: each is taken as a word that begins with a byte that no word of a
// text has.
ghost use Rattle.std.specs.Prelude.{◌≡◌};
ghost use Rattle.std.specs.Option.{option_copied};
ghost use Rattle.tptp_lexer.specs.Words as words;
ghost use Rattle.fi_model.specs.Distinct as spec;

use tptp_lexer::Tokens;

// The byte before the text of a distinct object.
const MARK: u8 = 0;

/// The tokens with words in place of distinct objects.
pub fn as_words(tokens: Tokens<'_>) -> Tokens<'_>
    ensures items { result.items ≡ words.as_words tokens.entry.items }
    ensures end { result.end ≡ tokens.entry.end }
    ensures style { result.style ≡ tokens.entry.style }
{
    let Tokens { items, end, style } = tokens;
    Tokens {
        items: items.objects_as_words(),
        end,
        style,
    }
}

/// The text of the distinct object for which the word stands.
pub fn object(word: &[u8]) -> Option<&[u8]>
    ensures { option_copied result ≡ spec.object word.now }
{
    match word.split_first() {
        Some((first, text)) => { if *first == MARK { Some(text) } else { None } }
        None => None,
    }
}

/// Whether the word stands for a distinct object.
pub fn is_distinct(word: &[u8]) -> bool
    ensures { result ≡ spec.is_distinct word.now }
{
    object(word).is_some()
}
