// Parts.
ghost use Rattle.std.specs.Prelude.{◌≡◌, ◌<◌, ◌^◌, IfOk};
ghost use Rattle.std.specs.List.{All as Each};
ghost use Rattle.fof_terms.specs.Sorts.{binder_depth};
ghost use Rattle.given_parts.specs.Parts.{part_of as part_of_form, parts_of as parts_of_given};

use clause_form::norm_signed;
use fof_terms::Form;
use sort_check::GivenEntry;
use std::alloc::Global;
use step_clauses::{Existential, existentials_of};
use tptp_base::{List, Memory};

/// A given formula as a search takes it apart.
#[derive(Drop)]
pub struct Part {
    /// Its normal form.
    pub norm: Form,
    /// The existential quantifiers of that, from the left and an outer one before those inside it.
    pub existentials: List<Existential>,
}

/// The parts of given formulas, in order.
pub fn parts_of(alloc: Global, given: &[GivenEntry]) -> Result<List<Part>, Memory>
    requires { Each (λ g. binder_depth g.form < 2 ^ 32) given.now }
    ensures { IfOk result (λ parts. parts ≡ parts_of_given given.now) }
{
    let mut parts = List::new(alloc);
    for entry in given {
        parts.push(part_of(alloc, &entry.form)?)?;
    }
    Ok(parts)
}

fn part_of(alloc: Global, form: &Form) -> Result<Part, Memory>
    requires { binder_depth form.now < 2 ^ 32 }
    ensures { IfOk result (λ part. part ≡ part_of_form form.now) }
{
    let norm = norm_signed(alloc, form, true)?;
    let existentials = existentials_of(alloc, &norm)?;
    Ok(Part { norm, existentials })
}
