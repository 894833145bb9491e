use kernel::Entry;
use tptp_base::List;

/// How a search for a step's line ends.
#[derive(Drop)]
pub enum Searched {
    /// The clauses are refuted: entries that derive the line.
    Refuted(List<Entry>),
    /// Each clause that is to be made is made, and none is empty.
    Dry,
    /// There are as many clauses as the limit allows, and more to come.
    Full,
    /// What is left to make is too heavy.
    Heavy,
    /// The step is too large for a search: no clause is made.
    Wide,
}
