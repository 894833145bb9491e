// The closing lines of a report.
ghost use Rattle.std.specs.Prelude.{◌≡◌, ◌++◌, OnOk, IfOk, decimal};
ghost use Rattle.derivation_check.specs.Report.{verdict_text};

use itoa::Buffer;
use std::alloc::{AllocError, Global};
use verifier::Verdict;

/// The closing lines.
pub fn end_of(alloc: Global, end: &Verdict) -> Result<Vec<u8>, AllocError>
    ensures { IfOk result (λ lines. lines.items ≡ verdict_text end.now) }
{
    match end {
        Verdict::Failed(unverified, skipped, count) => {
            failed_lines(alloc, *unverified, *skipped, *count)
        }
        Verdict::NoFalse => Vec::from_slice(alloc, b"not verified: no line is $false\n"),
        Verdict::BadClaim(claim) => {
            let mut lines = Vec::from_slice(alloc, b"not verified: claim ")?;
            put(&mut lines, claim.as_slice())?;
            put(&mut lines, b" is not justified\n")?;
            Ok(lines)
        }
        Verdict::Verified(status, problem, count) => {
            verified_lines(alloc, status.as_slice(), problem.as_slice(), *count)
        }
    }
}

// The line that counts what is not accepted.
fn failed_lines(
    alloc: Global,
    unverified: u64,
    skipped: u64,
    count: u64,
) -> Result<Vec<u8>, AllocError>
    ensures { IfOk result (λ lines. lines.items ≡ verdict_text (Verdict.Failed unverified skipped count)) }
{
    let mut lines = Vec::from_slice(alloc, b"not verified: ")?;
    put_number(&mut lines, unverified)?;
    put(&mut lines, b" unverified, ")?;
    put_number(&mut lines, skipped)?;
    put(&mut lines, b" skipped of ")?;
    put_number(&mut lines, count)?;
    put(&mut lines, b" lines\n")?;
    Ok(lines)
}

// The lines of a derivation that is verified.
fn verified_lines(
    alloc: Global,
    status: &[u8],
    problem: &[u8],
    count: u64,
) -> Result<Vec<u8>, AllocError>
    ensures { IfOk result (λ lines. lines.items ≡ verdict_text (Verdict.Verified status.now problem.now count)) }
{
    let mut lines = Vec::from_slice(alloc, b"% SZS status ")?;
    put(&mut lines, status)?;
    put(&mut lines, b" for ")?;
    put(&mut lines, problem)?;
    put(&mut lines, b"\nverified: ")?;
    put_number(&mut lines, count)?;
    put(&mut lines, b" lines\n")?;
    Ok(lines)
}

// Appends a number in decimal.
fn put_number(text: &mut Vec<u8>, number: u64) -> Result<(), AllocError>
    ensures { OnOk result (text.new.items ≡ text.old.items ++ decimal number) }
{
    let mut buffer = Buffer::new();
    put(text, buffer.format(number).as_bytes())
}

// Appends these bytes.
fn put(text: &mut Vec<u8>, bytes: &[u8]) -> Result<(), AllocError>
    ensures { OnOk result (text.new.items ≡ text.old.items ++ bytes.now) }
{
    text.extend_from_slice(bytes)
}
