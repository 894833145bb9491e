// The words of a log are read.
ghost use Rattle.std.specs.Prelude.{◌≡◌, ◌≤◌, ◌+◌, ◌*◌, ◌-◌, length, Ok, IfOk};
ghost use Rattle.first_fault.specs.code.Reading.{next, tail};
ghost use Rattle.proof_log.specs.code.ReadWords as spec;
ghost use Rattle.proof_log.specs.code.Outcomes.{Reads, Fails};

use crate::cursor::Cursor;
use crate::name::Spelled;
use crate::stop::Stop;

// How many bytes a text and a name begin with together.
fn shared(text: &[u8], name: &[u8]) -> usize
    ensures same { result ≡ spec.shared text.now name.now }
    ensures most { result ≤ length name.now }
{
    if let [first, others @ ..] = name {
        if let [byte, rest @ ..] = text {
            if *byte == *first {
                return shared(rest, others) + 1;
            }
        }
    }
    0
}

// Whether the text begins with the name.
fn begins(text: &[u8], name: &[u8]) -> bool
    ensures { result ≡ spec.begins text.now name.now }
{
    let mut left = text;
    let mut wanted = name;
    'bytes: while let [first, others @ ..] = wanted {
        let [byte, rest @ ..] = left else {
            return false;
        };
        if *byte != *first {
            return false;
        }
        left = rest;
        wanted = others;
    }
    true
}

// The first of these names that the text begins with.
fn find_among<N: Spelled>(some: &[N], text: &[u8]) -> Option<N>
    ensures { result ≡ spec.find N.spell some.now text.now }
{
    for name in some {
        if begins(text, name.spelling()) {
            return Some(*name);
        }
    }
    None
}

// How far the text begins as one of the names.
fn reach<N: Spelled>(text: &[u8]) -> usize
    ensures { result ≡ spec.reach N.spell N.names text.now }
{
    let mut most = 0;
    for name in N::all() {
        let count = shared(text, name.spelling());
        if count > most {
            most = count;
        }
    }
    most
}

/// One of the names.
#[inline(always)]
#[tactic(auto, unfolding(crate::specs::code::ReadWords::name))]
pub fn name<N: Spelled>(text: &mut Cursor<'_>) -> Result<N, Stop>
    ensures { Reads (spec.name N.spell N.names text.old) result text.new }
{
    match N::at_once(text.text()) {
        Some((found, rest)) => {
            *text = Cursor::new(rest);
            Ok(found)
        }
        None => name_among_all(text),
    }
}

// One of the names, which is looked for among all.
#[inline(never)]
#[tactic(auto, unfolding(crate::specs::code::ReadWords::name))]
fn name_among_all<N: Spelled>(text: &mut Cursor<'_>) -> Result<N, Stop>
    ensures { Reads (spec.name N.spell N.names text.old) result text.new }
{
    match find_among(N::all(), text.text()) {
        Some(found) => {
            text.advance(found.spelling().len());
            Ok(found)
        }
        None => {
            let count = reach::<N>(text.text());
            text.advance(count);
            Err(Stop::Unexpected)
        }
    }
}

/// One of the names, with a blank before it.
#[inline(always)]
#[tactic(auto, unfolding(crate::specs::code::ReadWords::head))]
pub fn head<N: Spelled>(text: &mut Cursor<'_>) -> Result<N, Stop>
    ensures { Reads (spec.head N.spell N.names text.old) result text.new }
{
    text.expect(b' ')?;
    name(text)
}

/// Why none of the names, with a blank before it, is read where it would be nested too deep.
#[inline(never)]
#[tactic(auto, unfolding(crate::specs::code::ReadWords::deep_head, crate::specs::code::ReadWords::deep_name))]
pub fn deep_head<N: Spelled>(text: &mut Cursor<'_>) -> Stop
    ensures { Fails (spec.deep_head N.spell N.names text.old) result text.new }
{
    match text.expect(b' ') {
        Ok(()) => {
            if reach::<N>(text.text()) == 0 {
                Stop::Unexpected
            } else {
                Stop::TooDeep
            }
        }
        Err(stop) => stop,
    }
}

// The number with the next digit behind it, where that stays small enough.
fn next_digit(text: &Cursor<'_>, most: u64, number: u64) -> Option<u64>
    requires { 9 ≤ most }
    ensures { result ≡ spec.with_digit most number (next text.now) }
{
    match text.peek() {
        Some(byte) => {
            if !byte.is_ascii_digit() {
                return None;
            }
            let digit = u64::from(byte - b'0');
            if number <= (most - digit) / 10 {
                Some(10 * number + digit)
            } else {
                None
            }
        }
        None => None,
    }
}

// The digits that follow a number, as long as it stays small enough.
fn more_digits(text: &mut Cursor<'_>, most: u64, first: u64) -> u64
    requires { 9 ≤ most }
    ensures { spec.more_digits most first text.old ≡ Ok (result, text.new) }
{
    let mut rest = Cursor::new(text.text());
    let mut number = first;
    'digits: while let Some(longer) = next_digit(&rest, most, number) {
        number = longer;
        rest.skip();
    }
    *text = rest;
    number
}

// A zero alone, or digits of which the first is none.
fn digits(text: &mut Cursor<'_>, most: u64) -> Result<u64, Stop>
    requires { 9 ≤ most }
    ensures { Reads (spec.digits most text.old) result text.new }
{
    match text.peek() {
        Some(byte) => {
            if byte == b'0' {
                text.skip();
                Ok(0)
            } else if byte.is_ascii_digit() {
                text.skip();
                Ok(more_digits(text, most, u64::from(byte - b'0')))
            } else {
                Err(Stop::Unexpected)
            }
        }
        None => Err(Stop::Unexpected),
    }
}

// A number with a blank before it.
#[tactic(auto, unfolding(crate::specs::code::ReadWords::number))]
fn number(text: &mut Cursor<'_>, most: u64) -> Result<u64, Stop>
    requires { 9 ≤ most }
    ensures { Reads (spec.number most text.old) result text.new }
{
    text.expect(b' ')?;
    digits(text, most)
}

/// A number of 64 bits.
#[inline(always)]
pub fn large(text: &mut Cursor<'_>) -> Result<u64, Stop>
    ensures { Reads (spec.number 18446744073709551615 text.old) result text.new }
{
    number(text, u64::MAX)
}

/// A number of 32 bits.
#[inline(always)]
pub fn small(text: &mut Cursor<'_>) -> Result<u32, Stop>
    ensures { Reads (spec.number 4294967295 text.old) result text.new }
{
    let number = number(text, 4_294_967_295)?;
    Ok(number as u32)
}
