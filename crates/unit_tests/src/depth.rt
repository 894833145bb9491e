// How deep proofs and formulas may nest. The kit's own compiler gives each level more stack than LLVM, so these are no
// rows, which both compile.
ghost use Rattle.std.specs.Prelude.{◌≡◌, ◌≤◌, true};
ghost use Rattle.clause_form.specs.Sizes.{norm_size_of};
ghost use Rattle.norm_proofs.specs.Placed.{SortedSomewhere};

use crate::builders::{form, is_concluded, symbols};
use crate::said::{is, shown};
use crate::theories::{admit_log, start};
use clause_form::norm_size;
use fof_terms::{Form, Signature, well_sorted};
use kernel::Entry;
use norm_proofs::norm_forth;
use proof_check::Theory;
use proof_log::{LogCheckFault, check_log, read_log, write_entry, write_header};
use std::alloc::{AllocError, Global};
use tptp_base::{Boxed, SinkFault, SteadySink};

// Words, so many times, and what stands behind them.
#[derive(Clone, Copy)]
struct Deep {
    times: u16,
    level: &'static str,
    behind: &'static str,
}

fn push_nested(text: &mut String, deep: &Deep) -> Result<(), AllocError> {
    for _ in 0..deep.times {
        text.push_str(deep.level)?;
    }
    text.push_str(deep.behind)
}

const PROOFS: [Deep; 6] = [
    Deep {
        times: 3999,
        level: "ande 0 ",
        behind: "line 0\n",
    },
    Deep {
        times: 4000,
        level: "ande 0 ",
        behind: "line 0\n",
    },
    Deep {
        times: 4000,
        level: "note ",
        behind: "",
    },
    Deep {
        times: 4001,
        level: "note ",
        behind: "",
    },
    Deep {
        times: 4000,
        level: "note ",
        behind: "v 0\n",
    },
    Deep {
        times: 4000,
        level: "note ",
        behind: "nove\n",
    },
];

#[test]
fn a_log_nests_4000_deep(rt: HostRuntime) {
    let wanted =
        "illegal 0; fault at 28013; fault at 20013; fault at 20013; fault at 20013; fault at 20013; ";
    is(&rt, checks(rt.alloc()), wanted);
}

fn checks(alloc: Global) -> Option<String> {
    let mut out = String::new(alloc);
    for proof in &PROOFS {
        push_check(alloc, &mut out, proof)?;
    }
    Some(out)
}

fn push_check(alloc: Global, out: &mut String, proof: &Deep) -> Option<()> {
    let log = log_of(alloc, proof).ok()?;
    check(alloc, out, log.as_bytes())
}

fn log_of(alloc: Global, proof: &Deep) -> Result<String, AllocError> {
    let mut log = String::from_str(alloc, "tptp-log 1\nL ")?;
    push_nested(&mut log, proof)?;
    Ok(log)
}

// Appends what is said of a log, where truth is given.
fn check(alloc: Global, out: &mut String, log: &[u8]) -> Option<()> {
    let mut theory = start(alloc).ok()?;
    admit_log(alloc, &mut theory, "tptp-log 1\nL andi 0\n")?;
    say(out, check_log(alloc, &mut theory, log)).ok()
}

fn say(out: &mut String, answer: Result<usize, LogCheckFault>) -> Result<(), AllocError> {
    match answer {
        Err(LogCheckFault::Text(offset) | LogCheckFault::Deep(offset)) => {
            write!(out, "fault at {offset}; ")
        }
        Err(LogCheckFault::Illegal(number)) => write!(out, "illegal {number}; "),
        _ => out.push_str("no fault; "),
    }
}

// Implications, each on the right side of the one before it, and the members of their normal form.
const IMPLICATIONS: Deep = Deep {
    times: 251,
    level: "> a 0 0 ",
    behind: "a 1 0",
};

const MEMBERS: Deep = Deep {
    times: 251,
    level: "~ a 0 0 ",
    behind: "a 1 0",
};

#[test]
fn implications_nest_250_deep(rt: HostRuntime) {
    is(&rt, normed(rt.alloc()), "true");
}

// Whether the kernel concludes from the implications to their normal form, by the proof that was written to a log and
// read again.
fn normed(alloc: Global) -> Option<String> {
    let implications = implications(alloc).ok()?;
    let proof = normal_form(alloc, implications.as_str())?;
    let log = logged(alloc, proof.get())?;
    is_normed(alloc, log.as_str(), implications.as_str())
}

fn implications(alloc: Global) -> Result<String, AllocError> {
    let mut text = String::new(alloc);
    push_nested(&mut text, &IMPLICATIONS)?;
    Ok(text)
}

fn is_normed(alloc: Global, log: &str, implications: &str) -> Option<String> {
    let wanted = implied(alloc, implications).ok()?;
    is_concluded_by(alloc, log, wanted.as_str())?
        .to_string(alloc)
        .ok()
}

// From the implications to their normal form.
fn implied(alloc: Global, implications: &str) -> Result<String, AllocError> {
    let mut text = format!(in alloc; "> {implications} | 252 ")?;
    push_nested(&mut text, &MEMBERS)?;
    Ok(text)
}

fn normal_form(alloc: Global, text: &str) -> Option<Boxed<Entry>> {
    let form = Boxed::new(alloc, form(alloc, text)?).ok()?;
    let theory = symbols(alloc)?;
    forth(alloc, theory.signature(), form.get())
}

// None where the formula is not well-sorted, or too large.
fn forth(alloc: Global, signature: &Signature, form: &Form) -> Option<Boxed<Entry>> {
    if !is_sorted(signature, form) {
        return None;
    }
    let proof = norm_forth(alloc, form).ok()?;
    Boxed::new(alloc, Entry::Lemma(proof.into_inner())).ok()
}

// Whether the formula is well-sorted alone, and not too large.
fn is_sorted(signature: &Signature, form: &Form) -> bool
    ensures { result ≡ true → (norm_size_of form.now ≤ 100000) × SortedSomewhere form.now }
{
    norm_size(form) <= 100000 && well_sorted(signature, &[], form)
}

fn logged(alloc: Global, entry: &Entry) -> Option<String> {
    let mut log = SteadySink::new(alloc);
    put_log(alloc, entry, &mut log).ok()?;
    shown(alloc, log.bytes()).ok()
}

fn put_log(alloc: Global, entry: &Entry, log: &mut SteadySink) -> Result<(), SinkFault> {
    write_header(log)?;
    write_entry(alloc, entry, log)
}

fn is_concluded_by(alloc: Global, log: &str, wanted: &str) -> Option<bool> {
    let entries = read_log(alloc, log.as_bytes()).ok()?;
    match entries.as_slice() {
        [entry] => is_concluded(alloc, entry, wanted),
        _ => None,
    }
}
