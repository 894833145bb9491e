// Proofs that are built of parts.
use super::theories::{admit_log, start};
use derive_kit::{Part, and_e, cases, cut_under, hyp, imp_i, instance_of, or_i, rewrite_in};
use fof_terms::{Form, Term, equal};
use kernel::{Entry, Proof};
use proof_check::Theory;
use proof_log::read_log;
use std::alloc::{AllocError, Global};
use std::process::Abort;
use tptp_base::{Boxed, List, Memory};

// The predicates p and q, the predicate r of one argument, and the constants c and d, in this order.
const SYMBOLS: &str = "tptp-log 1\nD p 'p' 0\nD p 'q' 0\nD p 'r' 1 0\nD f 'c' 0 0\nD f 'd' 0 0\n";

/// A theory without formulas, over these symbols.
pub fn symbols(alloc: Global) -> Option<Theory> {
    let mut theory = start(alloc).ok()?;
    admit_log(alloc, &mut theory, SYMBOLS)?;
    Some(theory)
}

/// The formula of a text as logs have it.
pub fn form(alloc: Global, text: &str) -> Option<Form> {
    let entries = entries_of(alloc, text)?;
    named(alloc, entries.as_slice())
}

fn entries_of(alloc: Global, text: &str) -> Option<List<Entry>> {
    let log = format!(in alloc; "tptp-log 1\nN 0 {text}\n").ok()?;
    read_log(alloc, log.as_bytes()).ok()
}

fn named(alloc: Global, entries: &[Entry]) -> Option<Form> {
    match entries {
        [Entry::Name(_, form)] => form.copy(alloc).ok(),
        _ => None,
    }
}

fn push_form(alloc: Global, forms: &mut List<Form>, text: &str) -> Option<()> {
    let form = form(alloc, text)?;
    forms.push(form).ok()
}

// The kernel must conclude that the premise implies the conclusion, where the proof shows the conclusion under the
// premise.
fn shows<R: Abort + AllocGlobal>(rt: &R, premise: &str, conclusion: &str, proof: Option<Part>) {
    let is_shown = is_shown(rt.alloc(), premise, conclusion, proof);
    assert!(*rt; is_shown.unwrap_or(false), "{premise} {conclusion}");
}

fn is_shown(alloc: Global, premise: &str, conclusion: &str, proof: Option<Part>) -> Option<bool> {
    let lemma = lemma(alloc, premise, proof?)?;
    let wanted = format!(in alloc; "> {premise} {conclusion}").ok()?;
    is_concluded(alloc, lemma.get(), wanted.as_str())
}

fn lemma(alloc: Global, premise: &str, proof: Part) -> Option<Boxed<Entry>> {
    let whole = imp_i(alloc, form(alloc, premise)?, proof).ok()?;
    Boxed::new(alloc, Entry::Lemma(whole.into_inner())).ok()
}

/// Whether the kernel concludes the formula of a text by a lemma.
pub fn is_concluded(alloc: Global, lemma: &Entry, wanted: &str) -> Option<bool> {
    let wanted = Boxed::new(alloc, form(alloc, wanted)?).ok()?;
    let theory = concluded(alloc, lemma)?;
    Some(is_first(&theory, wanted.get()))
}

// The theory over the symbols, with what the kernel concludes by a lemma.
fn concluded(alloc: Global, lemma: &Entry) -> Option<Theory> {
    let mut theory = symbols(alloc)?;
    theory.admit(lemma).ok()?;
    Some(theory)
}

fn is_first(theory: &Theory, wanted: &Form) -> bool {
    match theory.formula(0) {
        Some(found) => equal(found, wanted),
        None => false,
    }
}

// A member of a hypothesis.
fn member(alloc: Global, number: u32, hypothesis: u32) -> Result<Part, Memory> {
    and_e(alloc, number, hyp(alloc, hypothesis)?)
}

// By each of two members the disjunction the other way round, and by each of two equal members that member.
#[test]
fn cases_of_disjunctions(rt: HostRuntime) {
    let turned = turned(rt.alloc());
    shows(&rt, "| 2 a 0 0 a 1 0", "| 2 a 1 0 a 0 0", turned);
    let same = same(rt.alloc());
    shows(&rt, "| 2 a 0 0 a 0 0", "a 0 0", same);
}

fn turned(alloc: Global) -> Option<Part> {
    let mut arms = List::new(alloc);
    push_turned(alloc, &mut arms, 1)?;
    push_turned(alloc, &mut arms, 0)?;
    by_cases(alloc, arms, "| 2 a 1 0 a 0 0")
}

// Appends the disjunction the other way round, by its member of this number.
fn push_turned(alloc: Global, arms: &mut List<Proof>, number: u32) -> Option<()> {
    let members = members(alloc)?;
    let arm = or_i(alloc, members, number, hyp(alloc, 0).ok()?).ok()?;
    arms.push(arm.into_inner()).ok()
}

// The members of the disjunction the other way round.
fn members(alloc: Global) -> Option<List<Form>> {
    let mut members = List::new(alloc);
    push_form(alloc, &mut members, "a 1 0")?;
    push_form(alloc, &mut members, "a 0 0")?;
    Some(members)
}

fn by_cases(alloc: Global, arms: List<Proof>, goal: &str) -> Option<Part> {
    let choice = hyp(alloc, 0).ok()?;
    cases(alloc, choice, arms, form(alloc, goal)?).ok()
}

fn same(alloc: Global) -> Option<Part> {
    let mut arms = List::new(alloc);
    push_hyp(alloc, &mut arms).ok()?;
    push_hyp(alloc, &mut arms).ok()?;
    by_cases(alloc, arms, "a 0 0")
}

fn push_hyp(alloc: Global, arms: &mut List<Proof>) -> Result<(), Memory> {
    let arm = hyp(alloc, 0)?;
    Ok(arms.push(arm.into_inner())?)
}

// The second member of the hypothesis is cut in, and then it, or the first member, is shown.
#[test]
fn facts_that_are_cut_in(rt: HostRuntime) {
    let alloc = rt.alloc();
    let second = cut_in(alloc, hyp(alloc, 0));
    shows(&rt, "& 2 a 0 0 a 1 0", "a 1 0", second);
    let first = cut_in(alloc, member(alloc, 0, 1));
    shows(&rt, "& 2 a 0 0 a 1 0", "a 0 0", first);
}

fn cut_in(alloc: Global, rest: Result<Part, Memory>) -> Option<Part> {
    let rest = rest.ok()?;
    let second = member(alloc, 1, 0).ok()?;
    cut_under(alloc, second, form(alloc, "a 1 0")?, rest).ok()
}

#[test]
fn instances(rt: HostRuntime) {
    let one = instance(rt.alloc(), &[3]);
    shows(&rt, "! 0 a 2 1 v 0", "a 2 1 f 3 0", one);
    let two = instance(rt.alloc(), &[3, 4]);
    let premise = "! 0 ! 0 & 2 a 2 1 v 1 a 2 1 v 0";
    shows(&rt, premise, "& 2 a 2 1 f 3 0 a 2 1 f 4 0", two);
}

// The instance of the hypothesis for constants of these numbers.
fn instance(alloc: Global, constants: &[u32]) -> Option<Part> {
    let terms = constants_of(alloc, constants).ok()?;
    instance_of(alloc, hyp(alloc, 0).ok()?, terms).ok()
}

fn constants_of(alloc: Global, numbers: &[u32]) -> Result<List<Term>, AllocError> {
    let mut terms = List::new(alloc);
    for number in numbers {
        terms.push(Term::App(*number, List::new(alloc)))?;
    }
    Ok(terms)
}

// In the second member of the hypothesis the right side of its first, an equation, takes the place of the left.
#[test]
fn sides_of_equations(rt: HostRuntime) {
    let whole = rewritten(rt.alloc(), "a 2 1 v 0");
    let premise = "& 2 = f 3 0 f 4 0 a 2 1 f 3 0";
    shows(&rt, premise, "a 2 1 f 4 0", whole);
    let inside = rewritten(rt.alloc(), "| 2 a 2 1 v 0 a 0 0");
    let premise = "& 2 = f 3 0 f 4 0 | 2 a 2 1 f 3 0 a 0 0";
    shows(&rt, premise, "| 2 a 2 1 f 4 0 a 0 0", inside);
}

fn rewritten(alloc: Global, hole: &str) -> Option<Part> {
    let equation = member(alloc, 0, 0).ok()?;
    let fact = member(alloc, 1, 0).ok()?;
    rewrite_in(alloc, 0, form(alloc, hole)?, equation, fact).ok()
}
