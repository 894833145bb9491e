// The words and numbers that stand in front of a formula.
ghost use Rattle.std.specs.Prelude.{◌≡◌};
ghost use Rattle.std.specs.Char.{is_ascii_digit};
ghost use Rattle.std.specs.List.{list_all};
ghost use Rattle.tptp_base.specs.Numerals.{are_digits, is_integer};
ghost use Rattle.tptp_grammar.specs.Tokens.{has_language};
ghost use Rattle.tptp_grammar.specs.code.ReadItems as spec;

use tptp_base::{Lang, Role};
use tptp_lexer::Style;

/// Whether a number is a sign and digits alone.
pub fn is_integer(text: &[u8]) -> bool
    ensures { result ≡ is_integer text.now }
{
    match text {
        [sign, digits @ ..] => {
            if *sign == b'+' || *sign == b'-' {
                are_digits(digits)
            } else {
                are_digits(text)
            }
        }
        [] => false,
    }
}

fn are_digits(text: &[u8]) -> bool
    ensures { result ≡ are_digits text.now }
{
    !text.is_empty() && all_digits(text)
}

fn all_digits(text: &[u8]) -> bool
    ensures { result ≡ list_all is_ascii_digit text.now }
{
    text.iter().all(|byte| byte.is_ascii_digit())
}

// Whether typed clauses stand in texts of this style.
fn has_typed_clauses(style: Style) -> bool
    ensures { result ≡ has_language style Lang.Tcf }
{
    match style {
        Style::Problem => false,
        Style::Derivation => true,
    }
}

/// The language of this word in a text of this style.
#[tactic(auto, unfolding(crate::specs::code::ReadItems::lang_of))]
pub fn lang_of(style: Style, word: &[u8]) -> Option<Lang>
    ensures { result ≡ spec.lang_of style word.now }
{
    if word == b"cnf".as_slice() {
        Some(Lang::Cnf)
    } else if word == b"fof".as_slice() {
        Some(Lang::Fof)
    } else if word == b"tff".as_slice() {
        Some(Lang::Tff)
    } else if has_typed_clauses(style) && word == b"tcf".as_slice() {
        Some(Lang::Tcf)
    } else {
        None
    }
}

/// The role of this word.
#[tactic(auto, unfolding(crate::specs::code::ReadItems::role_of))]
pub fn role_of(word: &[u8]) -> Option<Role>
    ensures { result ≡ spec.role_of word.now }
{
    if word == b"axiom".as_slice() {
        Some(Role::Axiom)
    } else if word == b"hypothesis".as_slice() {
        Some(Role::Hypothesis)
    } else if word == b"definition".as_slice() {
        Some(Role::Definition)
    } else if word == b"assumption".as_slice() {
        Some(Role::Assumption)
    } else if word == b"lemma".as_slice() {
        Some(Role::Lemma)
    } else {
        proved_role(word)
    }
}

fn proved_role(word: &[u8]) -> Option<Role>
    ensures { result ≡ spec.role_among spec.proved_roles word.now }
{
    if word == b"theorem".as_slice() {
        Some(Role::Theorem)
    } else if word == b"corollary".as_slice() {
        Some(Role::Corollary)
    } else if word == b"conjecture".as_slice() {
        Some(Role::Conjecture)
    } else if word == b"negated_conjecture".as_slice() {
        Some(Role::NegatedConjecture)
    } else if word == b"plain".as_slice() {
        Some(Role::Plain)
    } else {
        other_role(word)
    }
}

fn other_role(word: &[u8]) -> Option<Role>
    ensures { result ≡ spec.role_among spec.other_roles word.now }
{
    if word == b"type".as_slice() {
        Some(Role::Typing)
    } else if word == b"fi_domain".as_slice() {
        Some(Role::FiDomain)
    } else if word == b"fi_functors".as_slice() {
        Some(Role::FiFunctors)
    } else if word == b"fi_predicates".as_slice() {
        Some(Role::FiPredicates)
    } else if word == b"unknown".as_slice() {
        Some(Role::Unknown)
    } else {
        None
    }
}
