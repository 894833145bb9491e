// Proofs that are built, and what the kernel concludes by them.
ghost use Rattle.std.specs.Prelude.{◌≡◌, ◌≤◌, true};
ghost use Rattle.clause_form.specs.Sizes.{norm_size_of};
ghost use Rattle.norm_proofs.specs.Placed.{SortedSomewhere};

use crate::line::Line;
use crate::scene::Scene;
use crate::shown::logged;
use clause_form::{Path, clause_of_path, norm_size};
use derive_kit::Part;
use fof_terms::{Form, Signature, well_sorted};
use kernel::Entry;
use norm_proofs::{norm_back, norm_forth, path_proof};
use proof_check::Theory;
use std::alloc::Global;
use tptp_base::{Boxed, List, Memory};

/// The answer of a call that builds a proof from a formula to the one that is wanted, or from that to it: what the
/// kernel concludes by the proof, in the theory without formulas over the formula's symbols, or `none` where none is
/// built.
///
/// - `forth`, `back`: between the formula and its normal form
/// - `path`: from the formula to the clause that a path reaches, where the path fits
pub fn found(alloc: Global, line: &Line<'_>, form: &Form) -> Option<String> {
    let mut theory = theory_of(alloc, line)?;
    match proof(alloc, theory.signature(), line, form)? {
        Some(proof) => concluded(alloc, &mut theory, proof),
        None => String::from_str(alloc, "none").ok(),
    }
}

fn theory_of(alloc: Global, line: &Line<'_>) -> Option<Theory> {
    let scene = Scene::of(alloc, line)?;
    Theory::start(alloc, scene.signature, List::new(alloc)).ok()
}

fn concluded(alloc: Global, theory: &mut Theory, proof: Part) -> Option<String> {
    let lemma = Boxed::new(alloc, Entry::Lemma(proof.into_inner())).ok()?;
    conclusion(alloc, theory, lemma.get())
}

fn conclusion(alloc: Global, theory: &mut Theory, lemma: &Entry) -> Option<String> {
    theory.admit(lemma).ok()?;
    logged(alloc, theory.formula(0)?.copy(alloc).ok())
}

fn proof(
    alloc: Global,
    signature: &Signature,
    line: &Line<'_>,
    form: &Form,
) -> Option<Option<Part>> {
    if !is_sorted(signature, form) {
        return None;
    }
    match line.call {
        "path" => along(alloc, form, line.parts),
        call => Some(Some(normed(alloc, call, form).ok()?)),
    }
}

// The proof of the normal form, or back from it.
fn normed(alloc: Global, call: &str, form: &Form) -> Result<Part, Memory>
    requires size { norm_size_of form.now ≤ 100000 }
    requires sorted { SortedSomewhere form.now }
{
    match call {
        "forth" => norm_forth(alloc, form),
        _ => norm_back(alloc, form),
    }
}

// Whether the formula is well-sorted alone, and not too large.
fn is_sorted(signature: &Signature, form: &Form) -> bool
    ensures { result ≡ true → (norm_size_of form.now ≤ 100000) × SortedSomewhere form.now }
{
    norm_size(form) <= 100000 && well_sorted(signature, &[], form)
}

// The proof by the path of a text, where it fits the formula.
fn along(alloc: Global, form: &Form, parts: &[&str]) -> Option<Option<Part>>
    requires size { norm_size_of form.now ≤ 100000 }
    requires sorted { SortedSomewhere form.now }
{
    let path = path(alloc, parts.get(1)?)?;
    along_path(alloc, form, path.get()).ok()
}

fn along_path(alloc: Global, form: &Form, path: &Path) -> Result<Option<Part>, Memory>
    requires size { norm_size_of form.now ≤ 100000 }
    requires sorted { SortedSomewhere form.now }
{
    match clause_of_path(alloc, form, path)? {
        Some(_) => Ok(Some(path_proof(alloc, form, path)?)),
        None => Ok(None),
    }
}

// The path of a text: `leaf`, `under` and the rest below a quantifier, a member's number and the rest in it, or `both`
// and the rests in the two members of a disjunction.
fn path(alloc: Global, text: &str) -> Option<Boxed<Path>> {
    let mut paths = List::new(alloc);
    for word in text.rsplit(' ') {
        let next = step(alloc, &mut paths, word)?;
        paths.push(next).ok()?;
    }
    paths.pop()
}

// The path of a word and of those behind it.
fn step(alloc: Global, paths: &mut List<Boxed<Path>>, word: &str) -> Option<Boxed<Path>> {
    match word {
        "leaf" => Boxed::new(alloc, Path::Leaf).ok(),
        "under" => Boxed::new(alloc, Path::Under(paths.pop()?)).ok(),
        "both" => both(alloc, paths),
        number => pick(alloc, paths, number.parse().ok()?),
    }
}

fn pick(alloc: Global, paths: &mut List<Boxed<Path>>, number: u32) -> Option<Boxed<Path>> {
    let next = paths.pop()?;
    Boxed::new(alloc, Path::Pick(number, next)).ok()
}

fn both(alloc: Global, paths: &mut List<Boxed<Path>>) -> Option<Boxed<Path>> {
    let mut ways = List::new(alloc);
    push_way(paths, &mut ways)?;
    push_way(paths, &mut ways)?;
    Boxed::new(alloc, Path::Each(ways)).ok()
}

fn push_way(paths: &mut List<Boxed<Path>>, ways: &mut List<Path>) -> Option<()> {
    let way = paths.pop()?;
    ways.push(way.into_inner()).ok()
}
