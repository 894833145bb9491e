// What is wanted of a line.
use crate::line::Line;
use crate::scene::Scene;
use crate::shown::logged;
use std::alloc::Global;

/// What is wanted of the line's call: a formula as logs have it, where the call makes one, or else the text. Where it
/// builds a proof, the formula is the implication that is proved. Symbols that the line's parts lack are added.
pub fn wanted(alloc: Global, scene: &mut Scene, line: &Line<'_>) -> Option<String> {
    match line.wanted {
        "none" | "wide" => line.wanted.to_string(alloc).ok(),
        _ => wanted_of(alloc, scene, line),
    }
}

fn wanted_of(alloc: Global, scene: &mut Scene, line: &Line<'_>) -> Option<String> {
    let wanted = line.wanted;
    match line.call {
        "norm" | "strip" | "clause" | "copy" | "input" => as_logged(alloc, scene, wanted),
        "forth" | "path" => implied(alloc, scene, line.first, wanted),
        "back" => implied(alloc, scene, wanted, line.first),
        _ => wanted.to_string(alloc).ok(),
    }
}

fn implied(alloc: Global, scene: &mut Scene, left: &str, right: &str) -> Option<String> {
    let text = format!(in alloc; "( {left} ) => ( {right} )").ok()?;
    as_logged(alloc, scene, text.as_str())
}

// The formula of a text as logs have it.
fn as_logged(alloc: Global, scene: &mut Scene, text: &str) -> Option<String> {
    scene.add(alloc, text)?;
    let last = scene.forms.pop()?;
    logged(alloc, Some(last.form))
}
