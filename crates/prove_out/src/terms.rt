// How terms are written.
ghost use Rattle.std.specs.Prelude.{IfOk};
ghost use Rattle.prove_out.specs.code.Written.{EachWritten, WritesTerm};

use crate::names::{symbol_name, variable_name};
use fof_terms::{Signature, SymId, Term};
use std::alloc::Global;
use tptp_base::{List, Memory, STerm};

/// The term, under so many binders.
#[cycle(term)]
pub(crate) fn written_term(
    alloc: Global,
    sig: &Signature,
    term: &Term,
    depth: u32,
) -> Result<STerm, Memory>
    ensures { IfOk result (λ written. WritesTerm sig.now depth term.now written) }
{
    match term {
        Term::Var(distance) => {
            let binder = depth.saturating_sub(*distance).saturating_sub(1);
            Ok(STerm::Var(variable_name(alloc, binder)?))
        }
        Term::App(symbol, args) => {
            let word = symbol_name(alloc, sig, *symbol)?;
            Ok(STerm::App(word, written_terms(alloc, sig, args.as_slice(), depth)?))
        }
    }
}

/// The terms, each as it is written.
#[cycle(term)]
pub(crate) fn written_terms(
    alloc: Global,
    sig: &Signature,
    terms: &[Term],
    depth: u32,
) -> Result<List<STerm>, Memory>
    ensures { IfOk result (λ written. EachWritten (WritesTerm sig.now depth) terms.now written) }
{
    let mut written = List::new(alloc);
    for term in terms {
        written.push(written_term(alloc, sig, term, depth)?)?;
    }
    Ok(written)
}
