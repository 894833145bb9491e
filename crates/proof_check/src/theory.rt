ghost use Rattle.std.specs.Prelude.{◌≡◌, ◌↔◌, [], length, slice_get, Some, None, IsTrue, IfOk, IfSome, OnOk, OnErr};
ghost use Rattle.std.specs.Prelude.{IsErrOf};
ghost use Rattle.std.specs.Option.{option_copied};
ghost use Rattle.std.specs.List.{All as Each, list_any};
ghost use Rattle.fof_terms.specs.Sorts.{Sorted};
ghost use Rattle.fof_terms.specs.Occurs.{occurs_in};
ghost use Rattle.fof_terms.specs.Vocabulary.{IsDeclared};
ghost use Rattle.fof_terms.specs.declared.form.Form.{Form as Formula};
ghost use Rattle.fof_terms.specs.declared.signature.Symbol.{Symbol as Sign};
ghost use Rattle.kernel.specs.declared.entry.Decl.TheVariants.{Sort as NewSort, Symbol as NewSymbol};
ghost use Rattle.kernel.specs.Statements.{IsRefuted};
ghost use Rattle.proof_check.specs.Concludes.{Concludes};
ghost use Rattle.kernel.specs.Entries.{Legal, After, MayDeclare, MayName, MayChoose, declared, with_formula, naming};
ghost use Rattle.kernel.specs.Entries.{choice};

use crate::closing::{choice_of, naming_of};
use crate::context::Context;
use crate::deduction::conclude;
use crate::fault::AdmitFault;
use crate::marks::{has, mark_at, mark_forms, widen};
use fof_terms::{Form, Kind, Signature, SymId, Symbol, occurs, well_sorted};
use kernel::{Decl, Entry, Proof};
use std::alloc::Global;
use std::marker::Model;
use tptp_base::{List, Memory, Text};

/// A signature, and the formulas that hold over it. Each formula is closed and well-sorted. The symbols that they use
/// are marked, each at its number.
#[derive(Drop)]
pub struct Theory {
    alloc: Global,
    signature: Signature,
    formulas: List<Form>,
    used: List<bool>,
}

impl Model for Theory {
    ghost use Rattle.kernel.specs.Statements.{Statements, AreClosed};
    ghost use Rattle.proof_check.specs.Uses.{HasUsed};
    ghost use Rattle.std.specs.Coded.{codes};
    ghost use Rattle.fof_terms.specs.contracts.form.Form as form;

    ghost Value = { Statements };

    ghost coded = { Prim.hlevel (codes, form.the_row.coded) };

    ghost view = { λ t. record { vocabulary = t.signature; formulas = t.formulas } };

    ghost invariant = { λ t. AreClosed (record { vocabulary = t.signature; formulas = t.formulas }) × HasUsed t.used t.formulas };
}

impl Theory {
    /// The theory of formulas that are closed and well-sorted.
    pub fn start(alloc: Global, signature: Signature, given: List<Form>) -> Result<Theory, Memory>
        requires { Each (Sorted signature []) given }
        ensures { IfOk result (λ theory. theory ≡ record { vocabulary = signature; formulas = given }) }
    {
        let mut used = List::new(alloc);
        widen(&mut used, signature.symbol_count() as usize)?;
        mark_forms(given.as_slice(), &mut used);
        Ok(Theory {
            alloc,
            signature,
            formulas: given,
            used,
        })
    }

    /// Adds what the entry says. Illegal exactly where the entry isn't legal. After a refusal the theory is as it was.
    pub fn admit(&mut self, entry: &Entry) -> Result<(), AdmitFault>
        ensures ok { OnOk result (Legal self.old entry.now × After self.old entry.now self.new) }
        ensures illegal { IsErrOf result AdmitFault.Illegal → Legal self.old entry.now → ⊥ }
        ensures err { OnErr result (self.new ≡ self.old) }
    {
        match entry {
            Entry::Declare(decl) => self.declare(decl),
            Entry::Lemma(proof) => {
                let form = self.lemma(proof)?;
                self.adopt(form)
            }
            Entry::Name(symbol, form) => {
                let form = self.named(*symbol, form)?;
                self.adopt(form)
            }
            Entry::Choice(symbol, form) => {
                let form = self.chosen(*symbol, form)?;
                self.adopt(form)
            }
        }
    }

    /// Whether the last formula is falsehood.
    pub fn refuted(&self) -> bool
        ensures { IsTrue result ↔ IsRefuted self.now }
    {
        match self.formulas.as_slice().last() {
            Some(Form::Or(members)) => members.is_empty(),
            _ => false,
        }
    }

    /// Whether the symbol stands in some formula.
    pub fn uses(&self, symbol: SymId) -> bool
        ensures { result ≡ list_any (occurs_in symbol) self.now.formulas }
    {
        has(self.used.as_slice(), symbol)
    }

    /// The formula of that number, counted from 0; None exactly where the number isn't there.
    pub fn formula(&self, number: u64) -> Option<&Form>
        ensures value { option_copied result ≡ slice_get self.now.formulas number }
        ensures closed { IfSome result (λ form. Sorted self.now.vocabulary [] form.now) }
    {
        self.formulas.get(number as usize)
    }

    /// How many formulas there are.
    pub fn len(&self) -> u64
        ensures { result ≡ length self.now.formulas }
    {
        self.formulas.len() as u64
    }

    /// The signature now.
    pub fn signature(&self) -> &Signature
        ensures { result.now ≡ self.now.vocabulary }
    {
        &self.signature
    }

    // Adds the sort or symbol.
    fn declare(&mut self, decl: &Decl) -> Result<(), AdmitFault>
        ensures ok { OnOk result (MayDeclare self.old decl.now × (self.new ≡ declared self.old decl.now)) }
        ensures illegal { IsErrOf result AdmitFault.Illegal → MayDeclare self.old decl.now → ⊥ }
        ensures err { OnErr result (self.new ≡ self.old) }
    {
        match decl {
            Decl::Sort(name) => self.declare_sort(name.as_slice()),
            Decl::Symbol(symbol) => self.declare_symbol(symbol),
        }
    }

    fn declare_sort(&mut self, name: &[u8]) -> Result<(), AdmitFault>
        ensures ok { OnOk result (MayDeclare self.old (NewSort name.now)
            × (self.new ≡ declared self.old (NewSort name.now))) }
        ensures illegal { IsErrOf result AdmitFault.Illegal → MayDeclare self.old (NewSort name.now) → ⊥ }
        ensures err { OnErr result (self.new ≡ self.old) }
    {
        let name = Text::from_slice(self.alloc, name)?;
        self.signature.add_sort(name)?;
        Ok(())
    }

    fn declare_symbol(&mut self, symbol: &Symbol) -> Result<(), AdmitFault>
        ensures ok { OnOk result (MayDeclare self.old (NewSymbol symbol.now)
            × (self.new ≡ declared self.old (NewSymbol symbol.now))) }
        ensures illegal { IsErrOf result AdmitFault.Illegal → MayDeclare self.old (NewSymbol symbol.now) → ⊥ }
        ensures err { OnErr result (self.new ≡ self.old) }
    {
        if !is_declared(&self.signature, symbol) {
            return Err(AdmitFault::Illegal);
        }
        let symbol = symbol.copy(self.alloc)?;
        self.signature.add(symbol)?;
        Ok(())
    }

    // Adds the formula, which is closed and well-sorted; Illegal where there is none.
    fn adopt(&mut self, form: Option<Form>) -> Result<(), AdmitFault>
        requires { (a : Formula) → form ≡ Some a → Sorted self.old.vocabulary [] a }
        ensures ok { OnOk result ((a : Formula) × (form ≡ Some a) × (self.new ≡ with_formula self.old a)) }
        ensures illegal { IsErrOf result AdmitFault.Illegal → form ≡ None }
        ensures err { OnErr result (self.new ≡ self.old) }
    {
        match form {
            Some(form) => {
                widen(&mut self.used, self.signature.symbol_count() as usize)?;
                let place = self.formulas.len();
                self.formulas.push(form)?;
                mark_at(self.formulas.as_slice(), place, &mut self.used);
                Ok(())
            }
            None => Err(AdmitFault::Illegal),
        }
    }

    // What the proof concludes from the theory alone.
    fn lemma(&self, proof: &Proof) -> Result<Option<Form>, Memory>
        ensures { IfOk result (λ answer. Concludes self.now [] [] proof.now answer) }
    {
        let context = Context::empty(self.alloc);
        conclude(self.alloc, self, &context, proof)
    }

    // What naming the formula adds, if the predicate may name it.
    fn named(&self, predicate: SymId, form: &Form) -> Result<Option<Form>, Memory>
        ensures { IfOk result (λ answer. (a : Formula)
            → (answer ≡ Some a)
            ↔ ((symbol : Sign) × MayName self.now predicate symbol form.now × (a ≡ naming predicate symbol form.now))) }
    {
        let Some(symbol) = self.signature.symbol(predicate) else {
            return Ok(None);
        };
        if !is_kind(symbol, Kind::Predicate) {
            return Ok(None);
        }
        if !well_sorted(&self.signature, symbol.args.as_slice(), form) {
            return Ok(None);
        }
        if self.uses(predicate) {
            return Ok(None);
        }
        if occurs(predicate, form) {
            return Ok(None);
        }
        let whole = naming_of(self.alloc, predicate, symbol, form)?;
        if !well_sorted(&self.signature, &[], whole.get()) {
            return Ok(None);
        }
        Ok(Some(whole.into_inner()))
    }

    // What choosing for the formula adds, if the function may choose for it.
    fn chosen(&self, function: SymId, form: &Form) -> Result<Option<Form>, Memory>
        ensures { IfOk result (λ answer. (a : Formula)
            → (answer ≡ Some a)
            ↔ ((symbol : Sign) × MayChoose self.now function symbol form.now × (a ≡ choice function symbol form.now))) }
    {
        let Some(symbol) = self.signature.symbol(function) else {
            return Ok(None);
        };
        if !is_kind(symbol, Kind::Function) {
            return Ok(None);
        }
        let mut sorts = List::from_slice(self.alloc, symbol.args.as_slice())?;
        sorts.push(symbol.result)?;
        if !well_sorted(&self.signature, sorts.as_slice(), form) {
            return Ok(None);
        }
        if self.uses(function) {
            return Ok(None);
        }
        if occurs(function, form) {
            return Ok(None);
        }
        let whole = choice_of(self.alloc, function, symbol, form)?;
        if !well_sorted(&self.signature, &[], whole.get()) {
            return Ok(None);
        }
        Ok(Some(whole.into_inner()))
    }
}

// Whether the symbol is of the kind.
fn is_kind(symbol: &Symbol, kind: Kind) -> bool
    ensures { IsTrue result ↔ (symbol.now.kind ≡ kind) }
{
    symbol.kind == kind
}

// Whether the sorts of the symbol are there.
fn is_declared(signature: &Signature, symbol: &Symbol) -> bool
    ensures { IsTrue result ↔ IsDeclared (length signature.now.sorts) symbol.now }
{
    let count = signature.sort_count();
    symbol.args.as_slice().iter().all(|sort| *sort < count) && symbol.result < count
}
