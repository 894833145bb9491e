// The two texts that the command `make` verifies, and what it says of them.
ghost use Rattle.std.specs.Prelude.{◌≡◌, ◌≤◌, ◌<◌, IfOk, string_bytes};
ghost use Rattle.read_problems.specs.Answer.{ending_of};
ghost use Rattle.tptp_commands.specs.code.Making.{line_of};
ghost use Rattle.read_problems.specs.Ending as ending;
ghost use Rattle.tptp_commands.specs.Made as spec;
ghost use Rattle.tptp_commands.specs.Made.{below};

use read_problems::Answer;
use std::alloc::{AllocError, Global};

// The parts of the texts that have a line for each number.
#[derive(Clone, Copy)]
pub enum Part {
    Implication,
    Leaf,
    Step,
}

/// The text of the problem: a chain of so many implications, and the denial of its end.
pub fn problem_text(alloc: Global, count: u32) -> Result<Vec<u8>, AllocError>
    requires { count ≤ 100000 }
    ensures { IfOk result (λ text. text.items ≡ spec.problem count) }
{
    let lines = lines(alloc, Part::Implication, count)?;
    let mut text = Vec::new(alloc);
    text.extend_from_slice(b"cnf(a0,axiom,p0).\n")?;
    text.extend_from_slice(&lines)?;
    text.extend_from_slice(format!(in alloc; "cnf(g,axiom,~ p{count}).\n")?.as_bytes())?;
    Ok(text)
}

/// The text of the derivation: a leaf for each clause of the problem, and the steps by which they are refuted.
pub fn derivation_text(alloc: Global, count: u32) -> Result<Vec<u8>, AllocError>
    requires { (1 ≤ count) × (count ≤ 100000) }
    ensures { IfOk result (λ text. text.items ≡ spec.derivation count) }
{
    let steps = steps(alloc, count)?;
    let mut text = leaves(alloc, count)?;
    text.extend_from_slice(&steps)?;
    Ok(text)
}

// The leaves of the derivation.
fn leaves(alloc: Global, count: u32) -> Result<Vec<u8>, AllocError>
    requires { count ≤ 100000 }
    ensures { IfOk result (λ text. text.items ≡ spec.leaves count) }
{
    let lines = lines(alloc, Part::Leaf, count)?;
    let mut text = Vec::new(alloc);
    text.extend_from_slice(b"cnf(b0,axiom,p0,file('make.p',a0)).\n")?;
    text.extend_from_slice(&lines)?;
    text.extend_from_slice(format!(in alloc;
        "cnf(h,axiom,~ p{count},file('make.p',g)).\n"
    )?.as_bytes())?;
    Ok(text)
}

// The steps of the derivation.
fn steps(alloc: Global, count: u32) -> Result<Vec<u8>, AllocError>
    requires { (1 ≤ count) × (count ≤ 100000) }
    ensures { IfOk result (λ text. text.items ≡ spec.steps count) }
{
    let lines = lines(alloc, Part::Step, count - 1)?;
    let mut text = Vec::new(alloc);
    text.extend_from_slice(b"cnf(c1,plain,p1,inference(resolution,[],[b0,b1])).\n")?;
    text.extend_from_slice(&lines)?;
    text.extend_from_slice(format!(in alloc;
        "cnf(e,plain,$false,inference(resolution,[],[c{count},h])).\n"
    )?.as_bytes())?;
    Ok(text)
}

// The lines of a part, of so many numbers.
#[tactic(auto, using(crate::proofs::Makes::below_more))]
fn lines(alloc: Global, part: Part, count: u32) -> Result<Vec<u8>, AllocError>
    requires { count ≤ 100000 }
    ensures { IfOk result (λ text. text.items ≡ below count (line_of part)) }
{
    let mut text = Vec::new(alloc);
    for number in 0..count {
        let line = line(alloc, part, number)?;
        text.extend_from_slice(line.as_bytes())?;
    }
    Ok(text)
}

// The line of a part with this number.
fn line(alloc: Global, part: Part, number: u32) -> Result<String, AllocError>
    requires { number < 100000 }
    ensures { IfOk result (λ line. string_bytes line ≡ line_of part number) }
{
    match part {
        Part::Implication => implication(alloc, number),
        Part::Leaf => leaf(alloc, number),
        Part::Step => step(alloc, number),
    }
}

// An implication of the problem.
fn implication(alloc: Global, number: u32) -> Result<String, AllocError>
    requires { number < 100000 }
    ensures { IfOk result (λ line. string_bytes line ≡ spec.implication number) }
{
    let next = number + 1;
    format!(in alloc; "cnf(a{next},axiom,~ p{number} | p{next}).\n")
}

// The leaf of an implication.
fn leaf(alloc: Global, number: u32) -> Result<String, AllocError>
    requires { number < 100000 }
    ensures { IfOk result (λ line. string_bytes line ≡ spec.leaf number) }
{
    let next = number + 1;
    format!(in alloc; "cnf(b{next},axiom,~ p{number} | p{next},file('make.p',a{next})).\n")
}

// A step behind the first.
fn step(alloc: Global, number: u32) -> Result<String, AllocError>
    requires { number < 100000 }
    ensures { IfOk result (λ line. string_bytes line ≡ spec.step number) }
{
    step_after(alloc, number + 1, number + 2)
}

// The step with the number `next`, from that with the number `last`.
fn step_after(alloc: Global, last: u32, next: u32) -> Result<String, AllocError>
    ensures { IfOk result (λ line. string_bytes line ≡ spec.step_after last next) }
{
    format!(in alloc; "cnf(c{next},plain,p{next},inference(resolution,[],[c{last},b{next}])).\n")
}

/// What is said where all is verified.
pub fn say_made(alloc: Global, count: u32) -> Result<Answer, AllocError>
    requires { count ≤ 100000 }
    ensures { IfOk result (λ answer. ending_of answer ≡ ending.says 0 (spec.summary count)) }
{
    say_counted(alloc, count, 2 * count + 3, count + 2, count + 1)
}

// What is said of so many lines, so many of them by norm and so many by resolution.
fn say_counted(
    alloc: Global,
    count: u32,
    lines: u32,
    norms: u32,
    resolutions: u32,
) -> Result<Answer, AllocError>
    ensures { IfOk result (λ answer.
        ending_of answer ≡ ending.says 0 (spec.counted count lines norms resolutions)) }
{
    let text = format!(in alloc;
        "make {count}: {lines} lines, {norms} norm, {resolutions} resolution, verified\n"
    )?;
    Ok(Answer::new(0, text))
}
