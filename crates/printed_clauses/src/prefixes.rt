// Names that are free.
ghost use Rattle.std.specs.Prelude.{◌≡◌, ◌≤◌, ℕ, IfOk, length, map, max};
ghost use Rattle.std.specs.List.{prefix_len};
ghost use Rattle.fof_terms.specs.Lift.{greatest};
ghost use Rattle.printed_clauses.specs.Prefixes.{IsPrefix, prefix_of};
ghost use Rattle.printed_clauses.specs.code.Underscores.{is_underscore, wanted};

use fof_terms::Signature;
use std::alloc::Global;
use tptp_base::{Memory, Text};

/// `sk` and as few underscores as make that no name of the signature begins so.
pub fn free_prefix(alloc: Global, sig: &Signature) -> Result<Text, Memory>
    ensures { IfOk result (λ prefix. (n : ℕ) × (prefix ≡ prefix_of n) × IsPrefix sig.now n) }
{
    let wanted = larger(wanted_of_symbols(sig), wanted_of_sorts(sig));
    let mut prefix = Text::from_slice(alloc, b"sk")?;
    for _ in 0..wanted {
        prefix.push(b'_')?;
    }
    Ok(prefix)
}

fn larger(first: usize, second: usize) -> usize
    ensures { result ≡ max first second }
{
    if first < second { second } else { first }
}

// How many underscores the names of the symbols want.
fn wanted_of_symbols(sig: &Signature) -> usize
    ensures { result ≡ greatest (map (λ s. wanted s.name) sig.now.symbols) }
{
    let mut most = 0;
    for number in 0..sig.symbol_count() {
        let Some(symbol) = sig.symbol(number) else {
            unreachable!()
        };
        most = larger(most, wanted_of(symbol.name.as_slice()));
    }
    most
}

// How many underscores the names of the sorts want.
fn wanted_of_sorts(sig: &Signature) -> usize
    ensures { result ≡ greatest (map wanted sig.now.sorts) }
{
    let mut most = 0;
    for number in 0..sig.sort_count() {
        let Some(name) = sig.sort(number) else {
            unreachable!()
        };
        most = larger(most, wanted_of(name.as_slice()));
    }
    most
}

// How many underscores a prefix must have, so that the name does not begin with it.
fn wanted_of(name: &[u8]) -> usize
    ensures { result ≡ wanted name.now }
{
    match name {
        [b's', b'k', rest @ ..] => 1 + leading_underscores(rest),
        _ => 0,
    }
}

// How many underscores the text begins with.
fn leading_underscores(name: &[u8]) -> usize
    ensures count { result ≡ prefix_len is_underscore name.now }
    ensures few { result ≤ length name.now }
{
    let mut count = 0;
    for byte in name {
        if *byte != b'_' {
            return count;
        }
        count += 1;
    }
    count
}
