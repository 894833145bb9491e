// Whether lines are inferred from formulas that have a normal form.
ghost use Rattle.std.specs.Prelude.{◌≡◌, ◌↔◌, IfOk, IsTrue};
ghost use Rattle.limited_items.specs.Premises.{HaveSmallPremises};
ghost use Rattle.limited_items.specs.code.Amounts.{is_from_counted, large_count as count_of_large};

use clause_form::{MAX_NORM_SIZE, norm_size};
use derivation_items::{LineSource, ProofLine};
use derivation_limits::Totals;
use fof_terms::Form;
use std::alloc::Global;
use tptp_base::Memory;

/// Whether each line that is inferred from one line alone is inferred from one that has a normal form.
pub fn have_small_premises(alloc: Global, lines: &[ProofLine]) -> Result<bool, Memory>
    ensures { IfOk result (λ small. IsTrue small ↔ HaveSmallPremises lines.now) }
{
    let mut large = Totals::new(alloc);
    for line in lines {
        if is_from_large(&large, &line.source) {
            return Ok(false);
        }
        large.add(alloc, line.name.as_slice(), large_count(&line.form))?;
    }
    Ok(true)
}

// Whether the line is inferred from one line alone, which is counted as one without a normal form.
fn is_from_large(large: &Totals, source: &LineSource) -> bool
    ensures { result ≡ is_from_counted large.now source.now }
{
    match source {
        LineSource::Inferred(lines) => match lines.as_slice() {
            [] => false,
            [line] => large.total(line.as_slice()) > 0,
            [_, _, ..] => false,
        },
        LineSource::Given(_) | LineSource::Skolemized(_) | LineSource::ClauseOf(_) => false,
    }
}

// One for a formula that has no normal form.
fn large_count(form: &Form) -> u64
    ensures { result ≡ count_of_large form.now }
{
    if norm_size(form) > MAX_NORM_SIZE {
        1
    } else {
        0
    }
}
