// The ways to choose one of each list.
ghost use Rattle.std.specs.Prelude.{◌≡◌, ◌++◌, ◌∷◌, [], IfOk, OnOk, map};
ghost use Rattle.clause_form.specs.Clauses.{choices};
ghost use Rattle.step_clauses.specs.code.Chosen.{joins};

use clause_form::Path;
use std::alloc::Global;
use tptp_base::{Boxed, List, Memory};

// One path of each list, in lexicographic order.
pub(crate) fn choose(alloc: Global, lists: &[List<Path>]) -> Result<List<List<Path>>, Memory>
    ensures { IfOk result (λ chosen. chosen ≡ choices lists.now) }
{
    if lists.len() == 0 {
        return no_choice(alloc);
    }
    if lists.len() == 1 {
        return singles(alloc, lists[0].as_slice());
    }
    let (first, others) = lists.split_at(lists.len() / 2);
    let left = choose(alloc, first)?;
    let right = choose(alloc, others)?;
    join_each(alloc, left.as_slice(), right.as_slice())
}

// The choice of nothing.
fn no_choice(alloc: Global) -> Result<List<List<Path>>, Memory>
    ensures { IfOk result (λ chosen. chosen ≡ [] ∷ []) }
{
    let mut chosen = List::new(alloc);
    chosen.push(List::new(alloc))?;
    Ok(chosen)
}

// Each path alone.
fn singles(alloc: Global, paths: &[Path]) -> Result<List<List<Path>>, Memory>
    ensures { IfOk result (λ chosen. chosen ≡ map (λ path. path ∷ []) paths.now) }
{
    let mut chosen = List::new(alloc);
    for path in paths {
        let mut one = List::new(alloc);
        one.push(copy_path(alloc, path)?)?;
        chosen.push(one)?;
    }
    Ok(chosen)
}

// Each of the first choices with each of the others behind it.
fn join_each(
    alloc: Global,
    left: &[List<Path>],
    right: &[List<Path>],
) -> Result<List<List<Path>>, Memory>
    ensures { IfOk result (λ joined. joined ≡ joins left.now right.now) }
{
    let mut joined = List::new(alloc);
    for choice in left {
        push_joined(alloc, choice.as_slice(), right, &mut joined)?;
    }
    Ok(joined)
}

// Adds the choice with each of the others behind it.
fn push_joined(
    alloc: Global,
    choice: &[Path],
    right: &[List<Path>],
    joined: &mut List<List<Path>>,
) -> Result<(), Memory>
    ensures { OnOk result (joined.new ≡ joined.old ++ map (λ other. choice.now ++ other) right.now) }
{
    for other in right {
        let mut one = copy_paths(alloc, choice)?;
        one.append(copy_paths(alloc, other.as_slice())?)?;
        joined.push(one)?;
    }
    Ok(())
}

/// The same path, in memory of its own.
#[cycle(copy_path)]
pub(crate) fn copy_path(alloc: Global, path: &Path) -> Result<Path, Memory>
    ensures { IfOk result (λ copy. copy ≡ path.now) }
{
    match path {
        Path::Leaf => Ok(Path::Leaf),
        Path::Pick(number, rest) => {
            let rest = Boxed::new(alloc, copy_path(alloc, rest.get())?)?;
            Ok(Path::Pick(*number, rest))
        }
        Path::Each(ways) => Ok(Path::Each(copy_paths(alloc, ways.as_slice())?)),
        Path::Under(rest) => {
            let rest = Boxed::new(alloc, copy_path(alloc, rest.get())?)?;
            Ok(Path::Under(rest))
        }
    }
}

/// The same paths, in memory of their own.
#[cycle(copy_path)]
pub(crate) fn copy_paths(alloc: Global, paths: &[Path]) -> Result<List<Path>, Memory>
    ensures { IfOk result (λ copies. copies ≡ paths.now) }
{
    let mut copies = List::new(alloc);
    for path in paths {
        copies.push(copy_path(alloc, path)?)?;
    }
    Ok(copies)
}
