// Lines of derivations.
use fof_terms::Form;
use tptp_base::{List, Name, Text};

/// Where a line comes from. Other lines are told by their names.
#[derive(Drop)]
pub enum LineSource {
    /// The formula of the problem of this name.
    Given(Name),
    /// This line, with new functions in place of existential variables.
    Skolemized(Text),
    /// A clause of this line.
    ClauseOf(Text),
    /// An inference from these lines.
    Inferred(List<Text>),
}

/// A line of a derivation.
#[derive(Drop)]
pub struct ProofLine {
    pub name: Text,
    pub form: Form,
    pub source: LineSource,
}
