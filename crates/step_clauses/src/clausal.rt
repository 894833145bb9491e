// The clauses of a formula.
ghost use Rattle.std.specs.Prelude.{◌≡◌, ◌≤◌, ◌<◌, ◌+◌, ◌++◌, ◌⊎◌, [], IfOk, IsErrOf, OnOk, true};
ghost use Rattle.std.specs.List.{filter_map, cons_option};
ghost use Rattle.clause_form.specs.Clauses.{clauses_of, clauses_in};
ghost use Rattle.clause_form.specs.Found.{IsRoomy};
ghost use Rattle.clause_form.specs.Norm.{norm_of};
ghost use Rattle.clause_form.specs.Paths.{reached};
ghost use Rattle.clause_form.specs.Sizes.{norm_size_of, clause_count_of};
ghost use Rattle.step_clauses.specs.Existentials.{ex_count};
ghost use Rattle.step_clauses.specs.Room.{IsBelow};
ghost use Rattle.step_clauses.specs.Skolems.{skolems_of as skolems_in};
ghost use Rattle.step_clauses.specs.code.InTurn.{IsClausable, norm_clauses};

use crate::existentials::existentials_of;
use crate::skolemizing::skolemize;
use crate::skolems::{Skolem, skolems_of};
use crate::ways::paths_of;
use clause_form::{Clause, FormFault, Path, clause_count, clause_of_path, norm};
use fof_terms::{Form, SymId};
use std::alloc::Global;
use tptp_base::{List, Memory};

/// Clauses, and the new functions of which they speak.
#[derive(Drop)]
pub struct Clausal {
    /// A function for each existential quantifier, in the order of their numbers.
    pub skolems: List<Skolem>,
    /// The clauses.
    pub clauses: List<Clause>,
}

/// The clauses of a closed formula, one for each path of its normal form, in lexicographic order of their choices. Each
/// existential quantifier is replaced by a new function, numbered from `next` on. Wide exactly where the norm size is
/// over 100,000, or the normal form has more clauses than `limit`, unless memory is wanted first.
pub fn clausify(alloc: Global, form: &Form, next: SymId, limit: u32) -> Result<Clausal, FormFault>
    requires below { IsBelow next form.now }
    requires numbers { norm_size_of form.now ≤ 100000 → next + ex_count (norm_of true form.now) ≤ 16777216 }
    ensures clauses { IfOk result (λ made. made.clauses ≡ clauses_of form.now next) }
    ensures skolems { IfOk result (λ made. made.skolems ≡ skolems_in (norm_of true form.now) next) }
    ensures narrow { OnOk result ((norm_size_of form.now ≤ 100000)
        × (clause_count_of (norm_of true form.now) ≤ limit)) }
    ensures wide { IsErrOf result FormFault.Wide
        → (100000 < norm_size_of form.now) ⊎ (limit < clause_count_of (norm_of true form.now)) }
{
    let norm = norm(alloc, form)?;
    clausify_norm(alloc, &norm, next, limit)
}

// The same of a formula that is a normal form.
fn clausify_norm(alloc: Global, norm: &Form, next: SymId, limit: u32) -> Result<Clausal, FormFault>
    requires { IsClausable next norm.now }
    ensures clauses { IfOk result (λ made. made.clauses ≡ norm_clauses norm.now next) }
    ensures skolems { IfOk result (λ made. made.skolems ≡ skolems_in norm.now next) }
    ensures narrow { OnOk result (clause_count_of norm.now ≤ limit) }
    ensures wide { IsErrOf result FormFault.Wide → limit < clause_count_of norm.now }
{
    if clause_count(norm) > u128::from(limit) {
        return Err(FormFault::Wide);
    }
    let mut made = Clausal {
        skolems: List::new(alloc),
        clauses: List::new(alloc),
    };
    match push_clausal(alloc, norm, next, &mut made) {
        Ok(()) => Ok(made),
        Err(_) => Err(FormFault::Memory),
    }
}

/// Adds the clauses of a normal form, and its functions, numbered from `next` on.
pub(crate) fn push_clausal(
    alloc: Global,
    norm: &Form,
    next: SymId,
    made: &mut Clausal,
) -> Result<(), Memory>
    requires { IsClausable next norm.now }
    ensures clauses { OnOk result (made.new.clauses ≡ made.old.clauses ++ norm_clauses norm.now next) }
    ensures skolems { OnOk result (made.new.skolems ≡ made.old.skolems ++ skolems_in norm.now next) }
{
    let found = existentials_of(alloc, norm)?;
    made.skolems
        .append(skolems_of(alloc, next, found.as_slice())?)?;
    let skolemized = skolemize(alloc, norm, next)?;
    push_clauses(alloc, &skolemized, &mut made.clauses)
}

// Adds the clauses of a normal form without existential quantifiers.
fn push_clauses(alloc: Global, form: &Form, clauses: &mut List<Clause>) -> Result<(), Memory>
    requires { IsRoomy form.now }
    ensures { OnOk result (clauses.new ≡ clauses.old ++ clauses_in form.now) }
{
    let paths = paths_of(alloc, form)?;
    push_reached(alloc, form, paths.as_slice(), clauses)
}

// Adds the clauses that the paths reach.
fn push_reached(
    alloc: Global,
    form: &Form,
    paths: &[Path],
    clauses: &mut List<Clause>,
) -> Result<(), Memory>
    requires { IsRoomy form.now }
    ensures { OnOk result (clauses.new ≡ clauses.old ++ filter_map (λ path. reached path form.now) paths.now) }
{
    for path in paths {
        push_one(alloc, form, path, clauses)?;
    }
    Ok(())
}

// Adds the clause that the path reaches, if it fits.
fn push_one(
    alloc: Global,
    form: &Form,
    path: &Path,
    clauses: &mut List<Clause>,
) -> Result<(), Memory>
    requires { IsRoomy form.now }
    ensures { OnOk result (clauses.new ≡ clauses.old ++ cons_option (reached path.now form.now) []) }
{
    match clause_of_path(alloc, form, path)? {
        Some(clause) => {
            clauses.push(clause)?;
            Ok(())
        }
        None => Ok(()),
    }
}
