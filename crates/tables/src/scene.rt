// Items and formulas, read from texts.
use crate::line::Line;
use crate::unifiers::circle;
use clause_form::Parent;
use fof_terms::{Form, Signature};
use kernel::Entry;
use proof_log::read_log;
use sort_check::{TextKind, denote};
use std::alloc::Global;
use tptp_base::{Item, List, Memory, Region};
use tptp_grammar::parse;
use tptp_lexer::{LexFault, Style, Tokens, tokens};

/// The formulas of a line, and the signature that they are over.
#[derive(Drop)]
pub struct Scene {
    pub signature: Signature,
    pub forms: List<Parent>,
}

impl Scene {
    /// The scene of what is given to a line, and of its parts. None where a text has a fault.
    pub fn of(alloc: Global, line: &Line<'_>) -> Option<Scene> {
        let mut scene = Scene {
            signature: Signature::new(alloc).ok()?,
            forms: List::new(alloc),
        };
        scene.read(alloc, line)?;
        Some(scene)
    }

    fn read(&mut self, alloc: Global, line: &Line<'_>) -> Option<()> {
        denoted(alloc, &mut self.signature, line.given)?;
        match line.call {
            "path" => self.add(alloc, line.first),
            "atoms" | "choices" | "conjunction" => self.add(alloc, "p"),
            "circle" => self.add_circle(alloc, line.first.parse().ok()?),
            _ => self.add_each(alloc, line.parts),
        }
    }

    fn add_circle(&mut self, alloc: Global, count: u32) -> Option<()> {
        let text = circle(alloc, count).ok()?;
        self.add(alloc, text.as_str())
    }

    // Adds the formulas of texts. A number is none.
    fn add_each(&mut self, alloc: Global, texts: &[&str]) -> Option<()> {
        for text in texts {
            let number: Option<u64> = text.parse().ok();
            if number.is_none() {
                self.add(alloc, text)?;
            }
        }
        Some(())
    }

    /// Adds the formula of a text, and its further symbols: a TFF formula, or behind `log ` a formula as logs have it.
    pub fn add(&mut self, alloc: Global, text: &str) -> Option<()> {
        match text.strip_prefix("log ") {
            Some(logged) => add_logged(alloc, &mut self.forms, logged),
            None => self.add_typed(alloc, text),
        }
    }

    fn add_typed(&mut self, alloc: Global, text: &str) -> Option<()> {
        let source = format!(in alloc; "tff(a,plain,{text}).").ok()?;
        let lines = denoted(alloc, &mut self.signature, source.as_str())?;
        push_last(&mut self.forms, lines)
    }
}

fn push_last(forms: &mut List<Parent>, mut lines: List<sort_check::Line>) -> Option<()> {
    let line = lines.pop()?;
    forms
        .push(Parent {
            number: 0,
            form: line.form,
        })
        .ok()
}

// The lines of a text.
fn denoted(alloc: Global, signature: &mut Signature, text: &str) -> Option<List<sort_check::Line>> {
    let items = items_of(alloc, text)?;
    if items.len() > 1000 {
        return None;
    }
    denote(alloc, items.as_slice(), signature, TextKind::Derivation).ok()
}

/// The items that a text spells.
pub fn items_of(alloc: Global, text: &str) -> Option<List<Item>> {
    let tokens = tokens_of(alloc, text, Style::Problem).ok()?;
    parse(alloc, &tokens).ok()
}

/// The tokens of a text, or its fault.
pub fn tokens_of(alloc: Global, text: &str, style: Style) -> Result<Tokens<'_>, LexFault> {
    let bytes = text.as_bytes();
    let whole = Region {
        start: 0,
        end: bytes.len() as u64,
    };
    tokens(alloc, 0, bytes, whole, style)
}

fn add_logged(alloc: Global, forms: &mut List<Parent>, text: &str) -> Option<()> {
    let log = format!(in alloc; "tptp-log 1\nN 0 {text}\n").ok()?;
    let entries = read_log(alloc, log.as_bytes()).ok()?;
    add_named(alloc, forms, entries.as_slice())
}

fn add_named(alloc: Global, forms: &mut List<Parent>, entries: &[Entry]) -> Option<()> {
    match entries {
        [Entry::Name(_, form)] => push_copy(alloc, forms, form).ok(),
        _ => None,
    }
}

/// Appends a copy of the formula.
pub fn push_copy(alloc: Global, forms: &mut List<Parent>, form: &Form) -> Result<(), Memory> {
    let form = form.copy(alloc)?;
    Ok(forms.push(Parent { number: 0, form })?)
}
