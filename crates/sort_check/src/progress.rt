// How far the items of a text were taken.
use crate::fault::SortFault;
use crate::front::Extent;
use crate::line::Line;
use crate::names::Names;
use crate::namesakes::Namesakes;
use fof_terms::Signature;
use tptp_base::List;

/// The lines of the formulas of a problem, where they were kept, over their signature.
#[derive(Drop)]
pub struct Denoted {
    pub lines: List<Line>,
    pub signature: Signature,
}

/// What the items so far denote.
#[derive(Drop)]
pub struct Progress {
    pub signature: Signature,
    /// How many sorts and symbols stand before those of formulas.
    pub typed: Extent,
    /// The names that the type lines declare.
    pub names: Names,
    /// Whether a conjecture has come.
    pub conjectured: bool,
    /// How many items have come.
    pub number: u32,
    /// Whether the lines are kept.
    pub keeps: bool,
    pub lines: List<Line>,
}

/// Where the items stand.
#[derive(Drop)]
pub enum Stage {
    /// Type lines alone have come.
    Types(Namesakes),
    /// Formulas have come behind the type lines.
    Lines,
    /// A type line has the first fault.
    Mistyped(SortFault),
    /// Another formula has the first fault, unless a type line follows.
    Faulty(SortFault),
    /// A type line stands behind another formula, and type lines alone are taken.
    Late(Namesakes),
    /// An include has come, or memory ran out.
    Unknown,
}

/// Where the items stand that are taken again.
#[derive(Drop)]
pub enum Turn {
    /// Their formulas have no fault.
    Lines,
    /// A formula has the first fault.
    Faulty(SortFault),
    /// Memory ran out.
    Unknown,
}
