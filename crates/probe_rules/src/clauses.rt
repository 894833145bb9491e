// Clauses and normal forms.
ghost use Rattle.clause_form.specs.ClauseView.{clause_of, closed};
ghost use Rattle.clause_form.specs.Covers.{AreComplementary, IsTrivial};
ghost use Rattle.clause_form.specs.Found.{IsRoomy};
ghost use Rattle.clause_form.specs.Norm.{norm_of};
ghost use Rattle.clause_form.specs.Paths.{all_beside as beside_of, reached};
ghost use Rattle.clause_form.specs.Reached.{Suits};
ghost use Rattle.clause_form.specs.Room.{AreOver};
ghost use Rattle.clause_form.specs.Sizes.{clause_count_of, norm_size_of};
ghost use Rattle.clause_form.specs.Strip.{strip_of};
ghost use Rattle.std.specs.Prelude.{IfOk, IfSome, IsErrOf, IsTrue, min, true, ◌-◌, ◌<◌, ◌^◌, ◌↔◌, ◌≡◌};

use crate::{Control, Probe};
use clause_form::{
    Clause, FormFault, Lit, Path, all_beside, are_complementary, as_clause, clause_count,
    clause_of_path, close, is_trivial, norm, norm_size, strip,
};
use fof_terms::Form;
use std::alloc::Global;
use tptp_base::Memory;

/// Makes clauses and normal forms.
pub trait Clauses {
    /// The clause that the formula is: universal quantifiers over a disjunction of literals or over one
    /// literal.
    fn as_clause(alloc: Global, form: &Form) -> Result<Option<Clause>, Memory>
        ensures { IfOk result (λ found. found ≡ clause_of form.now) };

    /// All of the clause's sorts, the first outermost, over the literal where there is exactly one, else over
    /// the Or of the literals.
    fn close(alloc: Global, clause: &Clause) -> Result<Form, Memory>
        ensures { IfOk result (λ form. form ≡ closed clause.now) };

    /// The normal form of the formula.
    fn norm(alloc: Global, form: &Form) -> Result<Form, FormFault>
        ensures ok { IfOk result (λ made. made ≡ norm_of true form.now) }
        ensures wide { IsErrOf result FormFault.Wide ↔ (100000 < norm_size_of form.now) };

    /// The greatest number of nodes that the normal form of the formula can have, up to the greatest value.
    fn norm_size(form: &Form) -> u128
        ensures { result ≡ min (norm_size_of form.now) (2 ^ 128 - 1) };

    /// The number of clauses of the formula, a normal form, up to the greatest value.
    fn clause_count(form: &Form) -> u128
        ensures { result ≡ min (clause_count_of form.now) (2 ^ 128 - 1) };

    /// The formula with every Ex turned into All.
    fn strip(alloc: Global, form: &Form) -> Result<Form, Memory>
        ensures { IfOk result (λ made. made ≡ strip_of form.now) };

    /// Whether the clause is true by its form.
    fn is_trivial(clause: &Clause) -> bool
        ensures { IsTrue result ↔ IsTrivial clause.now.lits };

    /// Whether one is positive, one negative, with the same atom up to the sides of an equation.
    fn are_complementary(left: &Lit, right: &Lit) -> bool
        ensures { IsTrue result ↔ AreComplementary left.now right.now };

    /// The clause that the path reaches in the formula.
    fn clause_of_path(alloc: Global, form: &Form, path: &Path) -> Result<Option<Clause>, Memory>
        requires { IsRoomy form.now }
        ensures found { IfOk result (λ clause. clause ≡ reached path.now form.now) }
        ensures suits { IfOk result (λ clause. IfSome clause (Suits form.now)) };

    /// Clauses over one scope as one clause: the variables of the first are outermost, its literals first.
    fn all_beside(alloc: Global, clauses: &[Clause]) -> Result<Clause, Memory>
        requires { AreOver clauses.now }
        ensures { IfOk result (λ whole. whole ≡ beside_of clauses.now) };
}

impl Clauses for Probe {
    fn as_clause(alloc: Global, form: &Form) -> Result<Option<Clause>, Memory> {
        as_clause(alloc, form)
    }

    fn close(alloc: Global, clause: &Clause) -> Result<Form, Memory> {
        close(alloc, clause)
    }

    fn norm(alloc: Global, form: &Form) -> Result<Form, FormFault> {
        norm(alloc, form)
    }

    fn norm_size(form: &Form) -> u128 {
        norm_size(form)
    }

    fn clause_count(form: &Form) -> u128 {
        clause_count(form)
    }

    fn strip(alloc: Global, form: &Form) -> Result<Form, Memory> {
        strip(alloc, form)
    }

    fn is_trivial(clause: &Clause) -> bool {
        is_trivial(clause)
    }

    fn are_complementary(left: &Lit, right: &Lit) -> bool {
        are_complementary(left, right)
    }

    fn clause_of_path(alloc: Global, form: &Form, path: &Path) -> Result<Option<Clause>, Memory> {
        clause_of_path(alloc, form, path)
    }

    fn all_beside(alloc: Global, clauses: &[Clause]) -> Result<Clause, Memory> {
        all_beside(alloc, clauses)
    }
}

impl Clauses for Control {
    fn as_clause(alloc: Global, form: &Form) -> Result<Option<Clause>, Memory> {
        match as_clause(alloc, form)? {
            Some(clause) => Ok(Some(Clause {
                sorts: clause.sorts,
                lits: clause.lits,
            })),
            None => Ok(None),
        }
    }

    fn close(alloc: Global, clause: &Clause) -> Result<Form, Memory> {
        let copy = clause.copy(alloc)?;
        close(alloc, &copy)
    }

    fn norm(alloc: Global, form: &Form) -> Result<Form, FormFault> {
        match norm(alloc, form) {
            Ok(made) => Ok(made),
            Err(fault) => Err(fault),
        }
    }

    fn norm_size(form: &Form) -> u128 {
        let size = norm_size(form);
        size
    }

    fn clause_count(form: &Form) -> u128 {
        let count = clause_count(form);
        count
    }

    fn strip(alloc: Global, form: &Form) -> Result<Form, Memory> {
        match strip(alloc, form) {
            Ok(made) => Ok(made),
            Err(Memory) => Err(Memory),
        }
    }

    fn is_trivial(clause: &Clause) -> bool {
        if is_trivial(clause) {
            return true;
        }
        false
    }

    fn are_complementary(left: &Lit, right: &Lit) -> bool {
        if are_complementary(left, right) {
            return true;
        }
        false
    }

    fn clause_of_path(alloc: Global, form: &Form, path: &Path) -> Result<Option<Clause>, Memory> {
        match clause_of_path(alloc, form, path)? {
            Some(clause) => Ok(Some(clause)),
            None => Ok(None),
        }
    }

    fn all_beside(alloc: Global, clauses: &[Clause]) -> Result<Clause, Memory> {
        let whole = all_beside(alloc, clauses)?;
        Ok(Clause {
            sorts: whole.sorts,
            lits: whole.lits,
        })
    }
}
