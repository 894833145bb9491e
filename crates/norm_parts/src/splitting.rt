//! The parts of a normal form.
ghost use Rattle.std.specs.Prelude.{◌≡◌, ◌++◌, ◌∷◌, [], map, flat_map, IfOk};
ghost use Rattle.clause_form.specs.ClauseView.{closed_by};
ghost use Rattle.norm_parts.specs.Parts.{parts_of};

use clause_form::Path;
use fof_terms::{Form, SortId};
use std::alloc::Global;
use tptp_base::{Boxed, List, Memory};

/// The parts of the formula: of a conjunction those of its members, of a universal quantifier those of its body, each
/// under the quantifier, and of any other formula itself.
pub fn parts(alloc: Global, form: &Form) -> Result<List<Form>, Memory>
    ensures { IfOk result (λ made. made ≡ parts_of form.now) }
{
    let mut sorts = List::new(alloc);
    let mut made = List::new(alloc);
    split(form, alloc, &mut sorts, &mut made)?;
    Ok(made)
}

// Adds the parts, each under quantifiers of these sorts.
#[cycle(split)]
fn split(
    form: &Form,
    alloc: Global,
    sorts: &mut List<SortId>,
    made: &mut List<Form>,
) -> Result<(), Memory>
    ensures { IfOk result (λ done. (made.new ≡ made.old ++ map (closed_by sorts.old) (parts_of form.now))
        × (sorts.new ≡ sorts.old)) }
{
    match form {
        Form::And(members) => split_all(members.as_slice(), alloc, sorts, made),
        Form::All(sort, body) => {
            sorts.push(*sort)?;
            split(body.get(), alloc, sorts, made)?;
            sorts.pop();
            Ok(())
        }
        Form::Atom(_, _)
        | Form::Eq(_, _)
        | Form::Not(_)
        | Form::Or(_)
        | Form::Imp(_, _)
        | Form::Iff(_, _)
        | Form::Ex(_, _) => push_closed(alloc, form, sorts.as_slice(), made),
    }
}

// The same of each of the formulas.
#[cycle(split)]
fn split_all(
    forms: &[Form],
    alloc: Global,
    sorts: &mut List<SortId>,
    made: &mut List<Form>,
) -> Result<(), Memory>
    ensures { IfOk result (λ done. (made.new ≡ made.old ++ map (closed_by sorts.old) (flat_map parts_of forms.now))
        × (sorts.new ≡ sorts.old)) }
{
    for form in forms {
        split(form, alloc, sorts, made)?;
    }
    Ok(())
}

// Adds the formula under quantifiers of these sorts.
fn push_closed(
    alloc: Global,
    form: &Form,
    sorts: &[SortId],
    made: &mut List<Form>,
) -> Result<(), Memory>
    ensures { IfOk result (λ done. made.new ≡ made.old ++ closed_by sorts.now form.now ∷ []) }
{
    let whole = closed(alloc, sorts, form)?;
    made.push(whole.into_inner())?;
    Ok(())
}

// The formula under quantifiers of these sorts, the first outermost.
fn closed(alloc: Global, sorts: &[SortId], form: &Form) -> Result<Boxed<Form>, Memory>
    ensures { IfOk result (λ made. made ≡ closed_by sorts.now form.now) }
{
    let mut whole = Boxed::new(alloc, form.copy(alloc)?)?;
    let mut left = List::from_slice(alloc, sorts)?;
    while let Some(sort) = left.pop() {
        whole = Boxed::new(alloc, Form::All(sort, whole))?;
    }
    Ok(whole)
}

/// The same path, in memory of its own.
#[cycle(copy_path)]
pub fn copy_path(alloc: Global, path: &Path) -> Result<Path, Memory>
    ensures { IfOk result (λ copy. copy ≡ path.now) }
{
    match path {
        Path::Leaf => Ok(Path::Leaf),
        Path::Pick(number, rest) => {
            let rest = Boxed::new(alloc, copy_path(alloc, rest.get())?)?;
            Ok(Path::Pick(*number, rest))
        }
        Path::Each(ways) => Ok(Path::Each(copy_paths(alloc, ways.as_slice())?)),
        Path::Under(rest) => {
            let rest = Boxed::new(alloc, copy_path(alloc, rest.get())?)?;
            Ok(Path::Under(rest))
        }
    }
}

// The same paths, in memory of their own.
#[cycle(copy_path)]
fn copy_paths(alloc: Global, paths: &[Path]) -> Result<List<Path>, Memory>
    ensures { IfOk result (λ copies. copies ≡ paths.now) }
{
    let mut copies = List::new(alloc);
    for path in paths {
        copies.push(copy_path(alloc, path)?)?;
    }
    Ok(copies)
}
