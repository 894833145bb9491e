ghost use Rattle.std.specs.Prelude.{◌≡◌, ◌<◌, ◌≤◌, ◌^◌, ◌↔◌, IfOk, IsErrOf, true};
ghost use Rattle.clause_form.specs.Norm.{norm_of};
ghost use Rattle.clause_form.specs.Sizes.{norm_size_of};
ghost use Rattle.flat_form.specs.Flat.{flat_of, flattened, pull_reach};

use crate::closing::close_over;
use crate::pulling::pull;
use clause_form::{FormFault, norm};
use fof_terms::Form;
use std::alloc::Global;
use tptp_base::{Boxed, Memory};

/// The flat form of the formula. Wide exactly where its norm size is over 100,000.
pub fn flat(alloc: Global, form: &Form) -> Result<Form, FormFault>
    requires room { norm_size_of form.now ≤ 100000 → pull_reach (norm_of true form.now) < 2 ^ 32 }
    ensures ok { IfOk result (λ made. made ≡ flat_of form.now) }
    ensures wide { IsErrOf result FormFault.Wide ↔ (100000 < norm_size_of form.now) }
{
    let normal = norm(alloc, form)?;
    match flatten(alloc, &normal) {
        Ok(made) => Ok(made.into_inner()),
        Err(_) => Err(FormFault::Memory),
    }
}

/// The flat form of a normal form.
pub fn flatten(alloc: Global, normal: &Form) -> Result<Boxed<Form>, Memory>
    requires size { norm_size_of normal.now ≤ 100000 }
    requires room { pull_reach normal.now < 2 ^ 32 }
    ensures { IfOk result (λ made. made ≡ flattened normal.now) }
{
    let pulled = pull(alloc, normal)?;
    close_over(alloc, pulled.sorts.as_slice(), &pulled.body)
}
