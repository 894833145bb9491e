// The names of the rules of proofs, behind their first letters.
ghost use Rattle.std.specs.Prelude.{◌++◌, codes, IfSome};
ghost use Rattle.proof_log.specs.code.Names as spec;
ghost use Rattle.proof_log.specs.code.ReadWords.{BeginsAs};

use crate::name::ProofName;

/// The rule whose name begins with an i, and goes on with the text.
pub fn behind_i(text: &[u8]) -> Option<(ProofName, &[u8])>
    ensures { IfSome result (λ found.
        BeginsAs spec.proof_name spec.proof_names (codes "i" ++ text.now) found.0 found.1.now) }
{
    match text {
        [b'm', b'p', b'e', rest @ ..] => Some((ProofName::ImpE, rest)),
        [b'm', b'p', b'i', rest @ ..] => Some((ProofName::ImpI, rest)),
        [b'f', b'f', b'l', rest @ ..] => Some((ProofName::IffL, rest)),
        [b'f', b'f', b'r', rest @ ..] => Some((ProofName::IffR, rest)),
        [b'f', b'f', b'i', rest @ ..] => Some((ProofName::IffI, rest)),
        [b'n', b'h', b'a', b'b', b'i', b't', rest @ ..] => Some((ProofName::Inhabit, rest)),
        _ => None,
    }
}

/// The rule whose name begins with "not", and goes on with the text.
pub fn behind_not(text: &[u8]) -> Option<(ProofName, &[u8])>
    ensures { IfSome result (λ found.
        BeginsAs spec.proof_name spec.proof_names (codes "not" ++ text.now) found.0 found.1.now) }
{
    match text {
        [b'e', rest @ ..] => Some((ProofName::NotE, rest)),
        [b'i', rest @ ..] => Some((ProofName::NotI, rest)),
        _ => None,
    }
}

/// The rule whose name begins with an a, and goes on with the text.
pub fn behind_a(text: &[u8]) -> Option<(ProofName, &[u8])>
    ensures { IfSome result (λ found.
        BeginsAs spec.proof_name spec.proof_names (codes "a" ++ text.now) found.0 found.1.now) }
{
    match text {
        [b'l', b'l', b'e', rest @ ..] => Some((ProofName::AllE, rest)),
        [b'l', b'l', b'i', rest @ ..] => Some((ProofName::AllI, rest)),
        [b'n', b'd', b'e', rest @ ..] => Some((ProofName::AndE, rest)),
        [b'n', b'd', b'i', rest @ ..] => Some((ProofName::AndI, rest)),
        _ => None,
    }
}

/// The rule whose name begins with "or", and goes on with the text.
pub fn behind_or(text: &[u8]) -> Option<(ProofName, &[u8])>
    ensures { IfSome result (λ found.
        BeginsAs spec.proof_name spec.proof_names (codes "or" ++ text.now) found.0 found.1.now) }
{
    match text {
        [b'e', rest @ ..] => Some((ProofName::OrE, rest)),
        [b'i', rest @ ..] => Some((ProofName::OrI, rest)),
        _ => None,
    }
}

/// The rule whose name begins with "ex", and goes on with the text.
pub fn behind_ex(text: &[u8]) -> Option<(ProofName, &[u8])>
    ensures { IfSome result (λ found.
        BeginsAs spec.proof_name spec.proof_names (codes "ex" ++ text.now) found.0 found.1.now) }
{
    match text {
        [b'e', rest @ ..] => Some((ProofName::ExE, rest)),
        [b'i', rest @ ..] => Some((ProofName::ExI, rest)),
        _ => None,
    }
}

/// The rule whose name begins with an r, and goes on with the text.
pub fn behind_r(text: &[u8]) -> Option<(ProofName, &[u8])>
    ensures { IfSome result (λ found.
        BeginsAs spec.proof_name spec.proof_names (codes "r" ++ text.now) found.0 found.1.now) }
{
    match text {
        [b'a', b'a', rest @ ..] => Some((ProofName::Raa, rest)),
        [b'e', b'f', b'l', rest @ ..] => Some((ProofName::Refl, rest)),
        _ => None,
    }
}
