use tptp_base::{Item, List, Text};

/// How deep a file may stand, the first file being 0 deep.
pub const MAX_DEPTH: usize = 16;

/// The greatest number of bytes of all files together, each opening of a file counted.
pub const TOTAL_SIZE: u64 = 268_435_456;

/// A problem whose includes are replaced.
#[derive(Drop)]
pub struct Problem {
    /// The names of the files as they were opened, in the order of opening. The number of a file in a `Place` is its
    /// place in this list.
    pub files: List<Text>,
    /// The formulas and comments. There is no include among them.
    pub items: List<Item>,
    /// The bytes of all files, each opening counted.
    pub read: u64,
}
