// The derivation of a refutation.
ghost use Rattle.std.specs.Prelude.{ℕ, ◌≡◌, ◌≤◌, ◌<◌, ◌+◌, ◌++◌, ◌∷◌, [], false, length, IfOk, OnOk};
ghost use Rattle.std.specs.List.{All as Each};
ghost use Rattle.clause_rules.specs.Steps.{IsReady};
ghost use Rattle.fof_terms.specs.Vocabulary.{IsDeclared};
ghost use Rattle.saturation.specs.Ends.{IsRefuted};
ghost use Rattle.saturation.specs.Members.{clauses_of};
ghost use Rattle.saturation.specs.Origins.{AreMade, IsMade};
ghost use Rattle.problem_proofs.specs.Found.{IsFound};
ghost use Rattle.problem_proofs.specs.Posed.{HasSymbols, clauses_of_given, is_too_wide, with_functions as searched};

use clause_form::Clause;
use fof_terms::{SigFault, Signature, Symbol};
use printed_clauses::free_prefix;
use refutation_lines::{Derivation, derivation_of};
use saturation::Member;
use sort_check::GivenEntry;
use std::alloc::Global;
use step_search::with_functions;
use tptp_base::Memory;

/// The derivation by members that a search made from the clauses of what is given, and by the further one.
pub(crate) fn derived(
    alloc: Global,
    sig: &Signature,
    given: &[GivenEntry],
    clauses: &[Clause],
    members: &[Member],
    last: &Member,
) -> Result<Derivation, Memory>
    requires ready { Each (λ g. IsReady sig.now g.form) given.now }
    requires room { HasSymbols sig.now given.now }
    requires narrow { is_too_wide sig.now given.now ≡ false }
    requires clauses { clauses.now ≡ clauses_of_given sig.now given.now }
    requires made { AreMade (searched sig.now given.now) (clauses_of_given sig.now given.now) members.now }
    requires last { IsMade (searched sig.now given.now) (clauses_of_given sig.now given.now) (clauses_of members.now)
        last.now }
    ensures { IfOk result (λ derivation. (limit : ℕ)
        → IsRefuted (searched sig.now given.now) (clauses_of_given sig.now given.now) limit (clauses_of members.now)
        last.now.clause
        → IsFound sig.now given.now limit derivation) }
{
    let prefix = free_prefix(alloc, sig)?;
    let first = sig.symbol_count();
    derivation_of(
        alloc,
        given,
        first,
        prefix.as_slice(),
        clauses,
        members,
        last,
    )
}

/// The signature, in memory of its own, with further symbols.
pub(crate) fn with_symbols(
    alloc: Global,
    sig: &Signature,
    symbols: &[Symbol],
) -> Result<Signature, Memory>
    requires room { length sig.now.symbols + length symbols.now ≤ 16777216 }
    requires declared { Each (IsDeclared (length sig.now.sorts)) symbols.now }
    ensures { IfOk result (λ grown. grown ≡ record sig.now { symbols = sig.now.symbols ++ symbols.now }) }
{
    let mut grown = with_functions(alloc, sig, &[])?;
    for symbol in symbols {
        let symbol = symbol.copy(alloc)?;
        add(&mut grown, symbol)?;
    }
    Ok(grown)
}

// Adds a symbol to a signature that has room for it.
fn add(sig: &mut Signature, symbol: Symbol) -> Result<(), Memory>
    requires room { length sig.old.symbols < 16777216 }
    requires declared { IsDeclared (length sig.old.sorts) symbol }
    ensures { OnOk result (sig.new ≡ record sig.old { symbols = sig.old.symbols ++ symbol ∷ [] }) }
{
    match sig.add(symbol) {
        Ok(_) => Ok(()),
        Err(SigFault::Limit(_)) => unreachable!(),
        Err(SigFault::Memory) => Err(Memory),
    }
}
