// From given formulas to a proof.
ghost use Rattle.std.specs.Prelude.{◌≡◌, false, length, IfOk, IfErr, OnOk};
ghost use Rattle.std.specs.List.{All as Each};
ghost use Rattle.clause_form.specs.Paths.{forms_of};
ghost use Rattle.clause_rules.specs.Steps.{IsReady};
ghost use Rattle.limited_items.specs.Limits.{IfLimit};
ghost use Rattle.step_clauses.specs.Inputs.{search_symbols};
ghost use Rattle.problem_proofs.specs.Posed.{HasSymbols, clauses_of_given, falsehood as the_falsehood, is_too_wide};
ghost use Rattle.problem_proofs.specs.Posed.{parents_of as parents_of_given};
ghost use Rattle.problem_proofs.specs.Proved.{IsProved, MayBeOver};

use crate::parents::parents_of;
use crate::printing::printed;
use crate::proved::{Proved, Why};
use crate::refuting::derived;
use clause_form::FormFault;
use fof_terms::{Form, Signature};
use limited_items::ProveFault;
use saturation::{Outcome, search};
use sort_check::GivenEntry;
use std::alloc::Global;
use step_clauses::{Clausal, has_room, search_input};
use step_search::with_functions;
use tptp_base::{LimitName, List};

/// Searches among at most `limit` clauses for a refutation of what a problem gives, and prints it as a derivation from
/// the problem of that file. The limit on symbols is tested first: that the given formulas leave room for the functions
/// in place of their existential variables.
pub fn prove(
    alloc: Global,
    sig: &Signature,
    given: &[GivenEntry],
    file: &[u8],
    limit: u32,
) -> Result<Proved, ProveFault>
    requires { Each (λ g. IsReady sig.now g.form) given.now }
    ensures room { OnOk result (HasSymbols sig.now given.now) }
    ensures proved { IfOk result (IsProved sig.now given.now file.now limit) }
    ensures limit { IfErr result (IfLimit (MayBeOver sig.now given.now limit)) }
{
    let parents = parents_of(alloc, given)?;
    let line = falsehood(alloc);
    let symbols = sig.symbol_count();
    let room = has_room(alloc, u64::from(symbols), parents.as_slice(), &line)?;
    if !room {
        return Err(ProveFault::Limit(LimitName::Symbols));
    }
    match search_input(alloc, parents.as_slice(), &line, symbols) {
        Ok(input) => search_clauses(alloc, sig, given, file, limit, input),
        Err(FormFault::Wide) => Ok(Proved::Open(Why::Wide)),
        Err(FormFault::Memory) => Err(ProveFault::Memory),
    }
}

// Falsehood.
fn falsehood(alloc: Global) -> Form
    ensures { result ≡ the_falsehood }
{
    Form::Or(List::new(alloc))
}

// The same with the clauses and functions of what is given.
fn search_clauses(
    alloc: Global,
    sig: &Signature,
    given: &[GivenEntry],
    file: &[u8],
    limit: u32,
    input: Clausal,
) -> Result<Proved, ProveFault>
    requires ready { Each (λ g. IsReady sig.now g.form) given.now }
    requires room { HasSymbols sig.now given.now }
    requires narrow { is_too_wide sig.now given.now ≡ false }
    requires clauses { input.clauses ≡ clauses_of_given sig.now given.now }
    requires functions { input.skolems
        ≡ search_symbols (length sig.now.symbols) (forms_of (parents_of_given given.now)) the_falsehood }
    ensures proved { IfOk result (IsProved sig.now given.now file.now limit) }
    ensures limit { IfErr result (IfLimit (MayBeOver sig.now given.now limit)) }
{
    let signature = with_functions(alloc, sig, input.skolems.as_slice())?;
    match search(alloc, &signature, input.clauses.as_slice(), limit)? {
        Outcome::Refuted(members, last) => {
            let derivation = derived(
                alloc,
                sig,
                given,
                input.clauses.as_slice(),
                members.as_slice(),
                &last,
            )?;
            printed(alloc, sig, given, file, &derivation)
        }
        Outcome::Dry(_members) => Ok(Proved::Open(Why::Dry)),
        Outcome::Full(_members) => Ok(Proved::Open(Why::Full)),
        Outcome::Heavy(_members) => Ok(Proved::Open(Why::Heavy)),
    }
}
