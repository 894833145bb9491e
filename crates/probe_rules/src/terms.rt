// Terms, formulas and signatures.
ghost use Rattle.fof_terms.specs.Instance.{instance_of, instance_reach};
ghost use Rattle.fof_terms.specs.Lift.{lift_reach, lifted};
ghost use Rattle.fof_terms.specs.Occurs.{occurs_in};
ghost use Rattle.fof_terms.specs.Scope.{scope_sorts};
ghost use Rattle.fof_terms.specs.Sorts.{Sorted, sort_of_term};
ghost use Rattle.fof_terms.specs.Vocabulary.{IsDeclared, found_symbol};
ghost use Rattle.std.specs.Prelude.{IfOk, IsErrOf, IsTrue, OnErr, OnOk, [], length, reverse, ◌++◌, ◌+◌, ◌<◌, ◌^◌, ◌↔◌};
ghost use Rattle.std.specs.Prelude.{◌∷◌, ◌≡◌};
ghost use Rattle.tptp_base.specs.declared.limit.LimitName.TheVariants.{Sorts, Symbols};
ghost use Rattle.tptp_base.specs.declared.limit.LimitName.{LimitName as limit_name};

use crate::{Control, Probe};
use fof_terms::{
    Form, Kind, Scope, SigFault, Signature, SortId, SymId, Symbol, Term, equal, instantiate, lift,
    occurs, sort_of, well_sorted,
};
use std::alloc::Global;
use tptp_base::{Memory, Text};

/// Handles terms, formulas and signatures.
pub trait Terms {
    /// Whether the formulas are equal.
    fn equal(left: &Form, right: &Form) -> bool
        ensures { IsTrue result ↔ (left.now ≡ right.now) };

    /// Every variable at least `from` binders out moves by `by`.
    fn lift(alloc: Global, form: &Form, by: u32, from: u32) -> Result<Form, Memory>
        requires { lift_reach by from form.now < 2 ^ 32 }
        ensures { IfOk result (λ moved. moved ≡ lifted by from form.now) };

    /// The nearest outer variable of `body` replaced, and the others moved in by one.
    fn instantiate(alloc: Global, body: &Form, by: &Term) -> Result<Form, Memory>
        requires { instance_reach by.now 0 body.now < 2 ^ 32 }
        ensures { IfOk result (λ instance. instance ≡ instance_of body.now by.now) };

    /// The sort of a term, if it is well-sorted.
    fn sort_of(term: &Term, signature: &Signature, scope: &Scope<'_>) -> Option<SortId>
        ensures { result ≡ sort_of_term signature.now (scope_sorts scope.now) term.now };

    /// Whether the formula is well-sorted over the variables of these sorts, the last of which is variable 0.
    fn well_sorted(signature: &Signature, sorts: &[SortId], form: &Form) -> bool
        ensures { IsTrue result ↔ Sorted signature.now (reverse sorts.now) form.now };

    /// Whether the symbol stands in the formula.
    fn occurs(symbol: SymId, form: &Form) -> bool
        ensures { result ≡ occurs_in symbol form.now };

    /// The first symbol of that name, kind and number of arguments; None exactly where there is none.
    fn find(signature: &Signature, name: &[u8], kind: Kind, arity: usize) -> Option<SymId>
        ensures { result ≡ found_symbol signature.now name.now kind arity };

    /// Adds a symbol, and answers its number.
    fn add(signature: &mut Signature, symbol: Symbol) -> Result<SymId, SigFault>
        requires { IsDeclared (length signature.old.sorts) symbol }
        ensures number { IfOk result (λ number. number ≡ length signature.old.symbols) }
        ensures room { OnOk result (length signature.old.symbols < 16777216) }
        ensures added { OnOk result (signature.new ≡
            record signature.old { symbols = signature.old.symbols ++ symbol ∷ [] }) }
        ensures limit { (limit : limit_name) → IsErrOf result (SigFault.Limit limit) ↔
            ((limit ≡ Symbols) × (length signature.old.symbols ≡ 16777216)) }
        ensures err { OnErr result (signature.new ≡ signature.old) };

    /// Adds a sort, and answers its number.
    fn add_sort(signature: &mut Signature, name: Text) -> Result<SortId, SigFault>
        ensures number { IfOk result (λ number. number ≡ length signature.old.sorts) }
        ensures room { OnOk result (length signature.old.sorts < 65536) }
        ensures added { OnOk result (signature.new ≡
            record signature.old { sorts = signature.old.sorts ++ name ∷ [] }) }
        ensures limit { (limit : limit_name) → IsErrOf result (SigFault.Limit limit) ↔
            ((limit ≡ Sorts) × (length signature.old.sorts ≡ 65536)) }
        ensures err { OnErr result (signature.new ≡ signature.old) };
}

impl Terms for Probe {
    fn equal(left: &Form, right: &Form) -> bool {
        equal(left, right)
    }

    fn lift(alloc: Global, form: &Form, by: u32, from: u32) -> Result<Form, Memory> {
        lift(alloc, form, by, from)
    }

    fn instantiate(alloc: Global, body: &Form, by: &Term) -> Result<Form, Memory> {
        instantiate(alloc, body, by)
    }

    fn sort_of(term: &Term, signature: &Signature, scope: &Scope<'_>) -> Option<SortId> {
        sort_of(term, signature, scope)
    }

    fn well_sorted(signature: &Signature, sorts: &[SortId], form: &Form) -> bool {
        well_sorted(signature, sorts, form)
    }

    fn occurs(symbol: SymId, form: &Form) -> bool {
        occurs(symbol, form)
    }

    fn find(signature: &Signature, name: &[u8], kind: Kind, arity: usize) -> Option<SymId> {
        signature.find(name, kind, arity)
    }

    fn add(signature: &mut Signature, symbol: Symbol) -> Result<SymId, SigFault> {
        signature.add(symbol)
    }

    fn add_sort(signature: &mut Signature, name: Text) -> Result<SortId, SigFault> {
        signature.add_sort(name)
    }
}

impl Terms for Control {
    fn equal(left: &Form, right: &Form) -> bool {
        if equal(left, right) {
            return true;
        }
        false
    }

    fn lift(alloc: Global, form: &Form, by: u32, from: u32) -> Result<Form, Memory> {
        let copy = form.copy(alloc)?;
        lift(alloc, &copy, by, from)
    }

    fn instantiate(alloc: Global, body: &Form, by: &Term) -> Result<Form, Memory> {
        let copy = body.copy(alloc)?;
        instantiate(alloc, &copy, by)
    }

    fn sort_of(term: &Term, signature: &Signature, scope: &Scope<'_>) -> Option<SortId> {
        match sort_of(term, signature, scope) {
            Some(sort) => Some(sort),
            None => None,
        }
    }

    fn well_sorted(signature: &Signature, sorts: &[SortId], form: &Form) -> bool {
        let all = sorts.len();
        well_sorted(signature, &sorts[..all], form)
    }

    fn occurs(symbol: SymId, form: &Form) -> bool {
        if occurs(symbol, form) {
            return true;
        }
        false
    }

    fn find(signature: &Signature, name: &[u8], kind: Kind, arity: usize) -> Option<SymId> {
        match signature.find(name, kind, arity) {
            Some(symbol) => Some(symbol),
            None => None,
        }
    }

    fn add(signature: &mut Signature, symbol: Symbol) -> Result<SymId, SigFault> {
        let number = signature.symbol_count();
        match signature.add(symbol) {
            Ok(_) => Ok(number),
            Err(fault) => Err(fault),
        }
    }

    fn add_sort(signature: &mut Signature, name: Text) -> Result<SortId, SigFault> {
        let number = signature.sort_count();
        match signature.add_sort(name) {
            Ok(_) => Ok(number),
            Err(fault) => Err(fault),
        }
    }
}
