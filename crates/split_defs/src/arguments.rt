//! Distinct variables as the arguments of a symbol.
ghost use Rattle.std.specs.Prelude.{◌≡◌, List, map, Some, IfOk, nat_eq};
ghost use Rattle.fof_terms.specs.declared.term.Term.{Var};
ghost use Rattle.split_defs.specs.code.Arguments.{AreNames};

use fof_terms::Term;
use indexmap::IndexSet;
use std::alloc::Global;
use tptp_base::Memory;

/// The variables that the arguments are; None exactly where some argument is no variable or two are the same.
pub fn names_of(alloc: Global, args: &[Term]) -> Result<Option<IndexSet<u32>>, Memory>
    ensures { IfOk result (AreNames args.now) }
{
    let mut names = IndexSet::new(alloc);
    for arg in args {
        match arg {
            Term::Var(number) => {
                if !names.insert(*number)? {
                    return Ok(None);
                }
            }
            Term::App(_, _) => return Ok(None),
        }
    }
    Ok(Some(names))
}
