// The arguments of a function that stands for an existential variable.
ghost use Rattle.std.specs.Prelude.{◌≡◌, ◌+◌, ◌==◌, ◌<◌, ◌^◌, filter, if◌then◌else◌, IfOk};
ghost use Rattle.fof_terms.specs.Sorts.{binder_depth};
ghost use Rattle.fof_terms.specs.Variables.{has_variable as has};
ghost use Rattle.function_choices.specs.Arguments.{argument_count as count_in, needed as needed_in};
ghost use Rattle.step_clauses.specs.Skolems.{nearest};

use fof_terms::{Form, Signature, SymId, has_variable};
use std::alloc::Global;
use tptp_base::{List, Memory};

// So many nearest variables, the outermost first.
pub(crate) fn outermost_first(alloc: Global, count: u32) -> Result<List<u32>, Memory>
    ensures { IfOk result (λ made. made ≡ nearest count) }
{
    let mut made = List::new(alloc);
    let mut left = count;
    while left > 0 {
        left -= 1;
        made.push(left)?;
    }
    Ok(made)
}

// Those of them that stand free in the existential formula over the body.
pub(crate) fn needed(alloc: Global, count: u32, body: &Form) -> Result<List<u32>, Memory>
    requires { count + binder_depth body.now < 2 ^ 32 }
    ensures { IfOk result (λ made. made ≡ needed_in count body.now) }
{
    let mut made = List::new(alloc);
    let mut left = count;
    while left > 0 {
        let stands = has_variable(body, left);
        left -= 1;
        if stands {
            made.push(left)?;
        }
    }
    Ok(made)
}

// All the variables, if the symbol takes so many arguments, and else those that are needed.
pub(crate) fn variables_for<'a>(
    sig: &Signature,
    symbol: SymId,
    outer: u32,
    all: &'a [u32],
    needed: &'a [u32],
) -> &'a [u32]
    ensures { result.now ≡ (if count_in sig.now symbol == outer then all.now else needed.now) }
{
    if argument_count(sig, symbol) == outer as usize {
        all
    } else {
        needed
    }
}

// How many arguments the symbol takes.
fn argument_count(sig: &Signature, symbol: SymId) -> usize
    ensures { result ≡ count_in sig.now symbol }
{
    match sig.symbol(symbol) {
        Some(symbol) => symbol.args.len(),
        None => 0,
    }
}
