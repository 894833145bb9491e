//! Calls of the crates that check lines, derivations and whole runs, each under a copy of its contract, so that an edit
//! of a body here shows that the contract refuses what the edit answers.
#![tactic(auto)]

mod checks;
mod lines;
mod proving;
mod reports;
mod runs;
mod steps;
mod verdicts;
mod words;

pub use checks::Checking;
pub use lines::Running;
pub use proving::Proving;
pub use reports::Reporting;
pub use runs::Commanding;
pub use steps::Answering;
pub use verdicts::Judging;
pub use words::Asking;

/// Calls as they are. The edits in must-fail/ change these bodies.
pub struct Probe;

/// The same answers by other bodies. These stay proved.
pub struct Control;
