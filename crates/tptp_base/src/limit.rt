use std::fmt;

/// The limits by name.
#[derive(Clone, Copy, Debug, PartialEq, Eq)]
pub enum LimitName {
    /// The bytes of one file.
    FileSize,
    /// The bytes that one run reads.
    TotalSize,
    /// How deep includes stand in each other.
    IncludeDepth,
    /// How deep formulas and terms stand in each other.
    Nesting,
    /// The bound variables of a formula.
    Variables,
    /// The formulas of a derivation.
    Lines,
    /// The symbols of a signature.
    Symbols,
    /// The sorts of a signature.
    Sorts,
}

impl fmt::Display for LimitName {
    fn fmt<W: fmt::Write>(&self, f: &mut fmt::Formatter<W>) -> fmt::Result {
        let name = match self {
            LimitName::FileSize => "file size",
            LimitName::TotalSize => "total size",
            LimitName::IncludeDepth => "include depth",
            LimitName::Nesting => "nesting",
            LimitName::Variables => "variables",
            LimitName::Lines => "lines",
            LimitName::Symbols => "symbols",
            LimitName::Sorts => "sorts",
        };
        f.write_str(name)
    }
}
