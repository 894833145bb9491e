//! Calls that read and write texts, each under the contract that it has in its own crate. An edit of a body here shows
//! that the contract refuses what the edit answers.
#![tactic(auto)]

mod base;
mod denoting;
mod derivations;
mod including;
mod logging;
mod printing;
mod reading;
mod reporting;

pub use base::Base;
pub use denoting::Denoting;
pub use derivations::Deriving;
pub use including::Including;
pub use logging::Logging;
pub use printing::Printing;
pub use reading::Reading;
pub use reporting::Reporting;

/// The calls as they are. The edits in must-fail/ change these bodies.
pub struct Probe;

/// The same answers by other bodies. These stay proved, so that a refusal is no want of proof.
pub struct Control;
