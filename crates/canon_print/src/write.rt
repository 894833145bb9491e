// Names, written to a sink.
ghost use Rattle.std.specs.Prelude.{◌≡◌, ◌<◌, ◌≤◌, length, take, IfOk, OnOk, OnErr, IsErrOf};
ghost use Rattle.std.specs.List.{flat_map, prefix_len};
ghost use Rattle.tptp_base.specs.Count.{Rose};
ghost use Rattle.tptp_base.specs.Sink.{Takes, TakesPrefix};
ghost use Rattle.tptp_lexer.specs.Quotes.{single_quote};
ghost use Rattle.canon_print.specs.Words as spec;
ghost use Rattle.canon_print.specs.code.Words as spec_code;

use crate::words::is_lower_word;
use tptp_base::{Name, Sink, SinkFault, put_all};

// Appends a character of a quoted word.
fn write_escaped<K: Sink>(char: u8, sink: &mut K) -> Result<(), SinkFault>
    ensures ok { OnOk result (Takes (K.taken sink.old) (K.taken sink.new) (spec.escaped single_quote char)) }
    ensures err { OnErr result (TakesPrefix (K.taken sink.old) (K.taken sink.new) (spec.escaped single_quote char)) }
    ensures failed { IsErrOf result SinkFault.Failed → Rose (K.faults sink.old) (K.faults sink.new) }
    ensures more_faults { K.faults sink.old ≤ K.faults sink.new }
{
    if char == b'\'' || char == b'\\' {
        put_all(sink, &[b'\\', char])
    } else {
        put_all(sink, &[char])
    }
}

// How many characters stand for themselves before the first that is written with `\`.
fn plain_len(chars: &[u8]) -> usize
    ensures value { result ≡ prefix_len (spec_code.is_bare single_quote) chars.now }
    ensures within { result ≤ length chars.now }
{
    chars
        .iter()
        .take_while(|char| **char != b'\'' && **char != b'\\')
        .count()
}

// Appends the characters before the first that is written with `\`, or that one alone, and says how many they are.
fn write_some<K: Sink>(chars: &[u8], sink: &mut K) -> Result<usize, SinkFault>
    requires { 0 < length chars.now }
    ensures count { IfOk result (λ count. (0 < count) × (count ≤ length chars.now)) }
    ensures ok { IfOk result (λ count.
        Takes (K.taken sink.old) (K.taken sink.new) (flat_map (spec.escaped single_quote) (take count chars.now))) }
    ensures err { OnErr result
        (TakesPrefix (K.taken sink.old) (K.taken sink.new) (flat_map (spec.escaped single_quote) chars.now)) }
    ensures failed { IsErrOf result SinkFault.Failed → Rose (K.faults sink.old) (K.faults sink.new) }
    ensures more_faults { K.faults sink.old ≤ K.faults sink.new }
{
    let plain = plain_len(chars);
    if plain == 0 {
        write_escaped(chars[0], sink)?;
        Ok(1)
    } else {
        put_all(sink, &chars[..plain])?;
        Ok(plain)
    }
}

// Appends the characters of a quoted word.
fn write_chars<K: Sink>(chars: &[u8], sink: &mut K) -> Result<(), SinkFault>
    ensures ok { OnOk result
        (Takes (K.taken sink.old) (K.taken sink.new) (flat_map (spec.escaped single_quote) chars.now)) }
    ensures err { OnErr result
        (TakesPrefix (K.taken sink.old) (K.taken sink.new) (flat_map (spec.escaped single_quote) chars.now)) }
    ensures failed { IsErrOf result SinkFault.Failed → Rose (K.faults sink.old) (K.faults sink.new) }
    ensures more_faults { K.faults sink.old ≤ K.faults sink.new }
{
    let mut done = 0;
    while done < chars.len() {
        done += write_some(&chars[done..], sink)?;
    }
    Ok(())
}

// Appends a word between quotes.
fn write_quoted<K: Sink>(word: &[u8], sink: &mut K) -> Result<(), SinkFault>
    ensures ok { OnOk result (Takes (K.taken sink.old) (K.taken sink.new) (spec.quoted single_quote word.now)) }
    ensures err { OnErr result (TakesPrefix (K.taken sink.old) (K.taken sink.new) (spec.quoted single_quote word.now)) }
    ensures failed { IsErrOf result SinkFault.Failed → Rose (K.faults sink.old) (K.faults sink.new) }
    ensures more_faults { K.faults sink.old ≤ K.faults sink.new }
{
    put_all(sink, b"'")?;
    write_chars(word, sink)?;
    put_all(sink, b"'")
}

// Appends a word, between quotes where it needs them.
fn write_word<K: Sink>(word: &[u8], sink: &mut K) -> Result<(), SinkFault>
    ensures ok { OnOk result (Takes (K.taken sink.old) (K.taken sink.new) (spec.word_text word.now)) }
    ensures err { OnErr result (TakesPrefix (K.taken sink.old) (K.taken sink.new) (spec.word_text word.now)) }
    ensures failed { IsErrOf result SinkFault.Failed → Rose (K.faults sink.old) (K.faults sink.new) }
    ensures more_faults { K.faults sink.old ≤ K.faults sink.new }
{
    if is_lower_word(word) {
        put_all(sink, word)
    } else {
        write_quoted(word, sink)
    }
}

/// Appends the name's part of the canonical text; on a refusal a prefix of it.
pub fn write_name<K: Sink>(name: &Name, sink: &mut K) -> Result<(), SinkFault>
    ensures ok { OnOk result (Takes (K.taken sink.old) (K.taken sink.new) (spec.name_text name.now)) }
    ensures err { OnErr result (TakesPrefix (K.taken sink.old) (K.taken sink.new) (spec.name_text name.now)) }
    ensures failed { IsErrOf result SinkFault.Failed → Rose (K.faults sink.old) (K.faults sink.new) }
    ensures more_faults { K.faults sink.old ≤ K.faults sink.new }
{
    match name {
        Name::Word(word) => write_word(word.as_slice(), sink),
        Name::Integer(number) => put_all(sink, number.as_slice()),
    }
}
