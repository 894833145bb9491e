// Implications of a formula by itself, which are left out where they would be used.
ghost use Rattle.std.specs.Prelude.{◌≡◌, IfOk, ℕ, List};
ghost use Rattle.fof_terms.specs.declared.form.Form.{Form as Formula, Imp};
ghost use Rattle.kernel.specs.Proves.{Proves};
ghost use Rattle.kernel.specs.Statements.{Statements};
ghost use Rattle.norm_proofs.specs.code.Applying.{is_first as is_first_of, is_itself as is_itself_of};
ghost use Rattle.norm_proofs.specs.code.Applying.{applied as applied_tree};

use derive_kit::{Part, imp_e};
use kernel::Proof;
use std::alloc::Global;
use tptp_base::Memory;

// Whether the proof is hypothesis 0.
#[tactic(auto, using(crate::proofs::ApplyingFacts::is_first_equations))]
fn is_first(proof: &Proof) -> bool
    ensures { result ≡ is_first_of proof.now }
{
    match proof {
        Proof::Hyp(number) => *number == 0,
        Proof::Line(_)
        | Proof::AndI(_)
        | Proof::AndE(_, _)
        | Proof::OrI(_, _, _)
        | Proof::OrE(_, _, _)
        | Proof::ImpI(_, _)
        | Proof::ImpE(_, _)
        | Proof::NotI(_, _)
        | Proof::NotE(_, _)
        | Proof::Raa(_, _)
        | Proof::IffI(_, _, _, _)
        | Proof::IffL(_, _)
        | Proof::IffR(_, _)
        | Proof::AllI(_, _)
        | Proof::AllE(_, _)
        | Proof::ExI(_, _, _, _)
        | Proof::ExE(_, _, _)
        | Proof::Refl(_)
        | Proof::Subst(_, _, _, _)
        | Proof::Inhabit(_, _, _) => false,
    }
}

// Whether the proof is that of the implication of a formula by itself.
#[tactic(auto, using(crate::proofs::ApplyingFacts::is_itself_equations))]
pub(crate) fn is_itself(proof: &Proof) -> bool
    ensures { result ≡ is_itself_of proof.now }
{
    match proof {
        Proof::ImpI(_, part) => is_first(part.get()),
        Proof::Line(_)
        | Proof::Hyp(_)
        | Proof::AndI(_)
        | Proof::AndE(_, _)
        | Proof::OrI(_, _, _)
        | Proof::OrE(_, _, _)
        | Proof::ImpE(_, _)
        | Proof::NotI(_, _)
        | Proof::NotE(_, _)
        | Proof::Raa(_, _)
        | Proof::IffI(_, _, _, _)
        | Proof::IffL(_, _)
        | Proof::IffR(_, _)
        | Proof::AllI(_, _)
        | Proof::AllE(_, _)
        | Proof::ExI(_, _, _, _)
        | Proof::ExE(_, _, _)
        | Proof::Refl(_)
        | Proof::Subst(_, _, _, _)
        | Proof::Inhabit(_, _, _) => false,
    }
}

// What the implication says of what the part shows.
pub(crate) fn applied(alloc: Global, implication: Part, part: Part) -> Result<Part, Memory>
    ensures { IfOk result (λ made. made ≡ applied_tree implication part) }
{
    if is_itself(implication.get()) {
        return Ok(part);
    }
    imp_e(alloc, implication, part)
}

/// What the implication says of what the part shows: the part itself, where the implication is of a formula by itself.
pub fn apply(alloc: Global, implication: Part, part: Part) -> Result<Part, Memory>
    ensures { IfOk result (λ made. (t : Statements) (v : List ℕ) (h : List Formula) (a b : Formula) →
        Proves t v h implication (Imp a b) → Proves t v h part a → Proves t v h made b) }
{
    applied(alloc, implication, part)
}
