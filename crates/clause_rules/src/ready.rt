ghost use Rattle.std.specs.Prelude.{◌↔◌, IsTrue};
ghost use Rattle.clause_rules.specs.Steps.{AreReady, IsReady};

use clause_form::Parent;
use fof_terms::{Form, Signature, is_within, well_sorted};

/// The most quantifiers inside each other of a formula that the rules are asked about.
pub const MAX_QUANTIFIERS: u32 = 1_000_000_000;

/// Whether the rules may be asked about the formula: it is closed and well-sorted, with at most 1,000,000,000
/// quantifiers inside each other.
#[tactic(auto, using(crate::proofs::Readiness::ready_by))]
pub fn is_ready(sig: &Signature, form: &Form) -> bool
    ensures { IsTrue result ↔ IsReady sig.now form.now }
{
    is_within(form, MAX_QUANTIFIERS) && well_sorted(sig, &[], form)
}

/// Whether the rules may be asked about all these parents.
pub fn are_ready(sig: &Signature, parents: &[Parent]) -> bool
    ensures { IsTrue result ↔ AreReady sig.now parents.now }
{
    parents.iter().all(|parent| is_ready(sig, &parent.form))
}
