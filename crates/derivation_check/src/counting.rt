// How many lines are accepted by a rule.
ghost use Rattle.std.specs.Prelude.{◌≡◌, count_by};
ghost use Rattle.derivation_check.specs.Counts as spec;

use elaborate::Rule;
use verifier::LineAnswer;

/// How many lines are accepted by norm.
pub fn norm_count(answers: &[LineAnswer]) -> usize
    ensures { result ≡ count_by spec.is_norm answers.now }
{
    answers.iter().filter(|answer| is_norm(answer)).count()
}

/// How many lines are accepted by resolution.
pub fn resolution_count(answers: &[LineAnswer]) -> usize
    ensures { result ≡ count_by spec.is_resolution answers.now }
{
    answers
        .iter()
        .filter(|answer| is_resolution(answer))
        .count()
}

// Whether the line is accepted by norm.
fn is_norm(answer: &LineAnswer) -> bool
    ensures { result ≡ spec.is_norm answer.now }
{
    matches!(
        answer,
        LineAnswer::Accepted {
            rule: Rule::Norm,
            ..
        }
    )
}

// Whether the line is accepted by resolution.
fn is_resolution(answer: &LineAnswer) -> bool
    ensures { result ≡ spec.is_resolution answer.now }
{
    matches!(
        answer,
        LineAnswer::Accepted {
            rule: Rule::Resolution,
            ..
        }
    )
}
