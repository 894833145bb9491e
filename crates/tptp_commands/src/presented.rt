// What the command `prove` prints.
ghost use Rattle.std.specs.Prelude.{◌≡◌, ◌≤◌, ◌-◌, ◌++◌, IfOk, IfSome, IfNone, OnOk, codes};
ghost use Rattle.tptp_base.specs.Read.{IsOver};
ghost use Rattle.derivation_items.specs.Words.{printable_byte as printable_code, printable_text};
ghost use Rattle.read_problems.specs.Answer.{ending_of};
ghost use Rattle.tptp_commands.specs.Presented as spec;
ghost use Rattle.tptp_commands.specs.Refuted.{IsInBudget};

use canon_print::print;
use read_problems::{Answer, TOTAL_SIZE, over_limit, say_of_file};
use std::alloc::{AllocError, Global};
use tptp_base::{FILE_SIZE, Item, LimitName, Memory, Text};

/// The items of a derivation from the problem in the file, between lines that name the status and the file.
pub fn proof_text(alloc: Global, file: &[u8], status: &[u8], items: &[Item]) -> Result<Text, Memory>
    ensures { IfOk result (λ text. text ≡ spec.proof_text file.now status.now items.now) }
{
    let file = printable(alloc, file)?;
    let derivation = print(alloc, items)?;
    let text = between_lines(alloc, &file, status, derivation.as_slice())?;
    Ok(Text::from_vec(text))
}

// The text of a derivation between lines that name the status and the file.
fn between_lines(
    alloc: Global,
    file: &[u8],
    status: &[u8],
    derivation: &[u8],
) -> Result<Vec<u8>, AllocError>
    ensures { IfOk result (λ text. text.items ≡ spec.between_lines file.now status.now derivation.now) }
{
    let mut text = head(alloc, file, status)?;
    text.extend_from_slice(derivation)?;
    put_line(&mut text, file, b"% SZS output end CNFRefutation")?;
    Ok(text)
}

// The lines before a derivation.
fn head(alloc: Global, file: &[u8], status: &[u8]) -> Result<Vec<u8>, AllocError>
    ensures { IfOk result (λ text. text.items ≡ spec.head file.now status.now) }
{
    let mut text = Vec::new(alloc);
    put_status(&mut text, file, status)?;
    put_line(&mut text, file, b"% SZS output start CNFRefutation")?;
    Ok(text)
}

// The line that names the status and the file.
fn put_status(text: &mut Vec<u8>, file: &[u8], status: &[u8]) -> Result<(), AllocError>
    ensures { OnOk result (text.new.items ≡ text.old.items ++ spec.status_line file.now status.now) }
{
    put_both(text, b"% SZS status ", status)?;
    end_line(text, file)
}

// Two texts, one behind the other.
fn put_both(text: &mut Vec<u8>, first: &[u8], second: &[u8]) -> Result<(), AllocError>
    ensures { OnOk result (text.new.items ≡ text.old.items ++ (first.now ++ second.now)) }
{
    text.extend_from_slice(first)?;
    text.extend_from_slice(second)?;
    Ok(())
}

// A line that says this and names the file.
fn put_line(text: &mut Vec<u8>, file: &[u8], what: &[u8]) -> Result<(), AllocError>
    ensures { OnOk result (text.new.items ≡ text.old.items ++ spec.szs_line file.now what.now) }
{
    text.extend_from_slice(what)?;
    end_line(text, file)
}

// The end of a line that names the file.
fn end_line(text: &mut Vec<u8>, file: &[u8]) -> Result<(), AllocError>
    ensures { OnOk result (text.new.items ≡ text.old.items ++ spec.line_end file.now) }
{
    text.extend_from_slice(b" for ")?;
    text.extend_from_slice(file)?;
    text.push(b'\n')?;
    Ok(())
}

// The name of a file with a question mark in place of each byte that no line can hold.
fn printable(alloc: Global, name: &[u8]) -> Result<Vec<u8>, AllocError>
    ensures { IfOk result (λ word. word.items ≡ printable_text name.now) }
{
    let mut word = Vec::new(alloc);
    for byte in name {
        word.push(printable_byte(*byte))?;
    }
    Ok(word)
}

// The byte, or a question mark.
fn printable_byte(byte: u8) -> u8
    ensures { result ≡ printable_code byte }
{
    if 32 <= byte && byte <= 126 {
        byte
    } else {
        b'?'
    }
}

/// What is said where no derivation is found, for that reason.
pub fn not_proved(alloc: Global, reason: &str) -> Result<Answer, AllocError>
    ensures { IfOk result (λ answer. ending_of answer ≡ spec.not_proved reason.now) }
{
    say_of_file(alloc, 1, b"not proved: ", reason)
}

/// What is said where a derivation from the problem in the file is over the limit.
pub fn say_over(alloc: Global, file: &str, limit: LimitName) -> Result<Answer, AllocError>
    ensures { IfOk result (λ answer. ending_of answer ≡ spec.is_over file.now limit) }
{
    let file = printable(alloc, file.as_bytes())?;
    over_limit(alloc, &file, limit)
}

/// The limit that a text of so many bytes is over, from a problem whose files have so many.
#[tactic(auto, using(crate::proofs::Sizes::in_budget))]
pub fn over_size(size: usize, read: u64) -> Option<LimitName>
    requires { read ≤ TOTAL_SIZE }
    ensures some { IfSome result (λ limit. IsOver limit (TOTAL_SIZE - read) size) }
    ensures none { IfNone result (IsInBudget read size) }
    ensures small { IfNone result (size ≤ FILE_SIZE) }
{
    let size = size as u64;
    if size > FILE_SIZE {
        Some(LimitName::FileSize)
    } else if size > TOTAL_SIZE - read {
        Some(LimitName::TotalSize)
    } else {
        None
    }
}
