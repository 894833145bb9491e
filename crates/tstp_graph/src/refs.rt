// Parents, each once.
ghost use Rattle.std.specs.Prelude.{◌≡◌, [], not, map, OnOk, IfOk};
ghost use Rattle.tstp_graph.specs.Meaning.{with_ref, with_refs};
ghost use Rattle.tstp_graph.specs.code.RefSets;
ghost use Rattle.tstp_graph.specs.code.RefSets.{AreMembers, Notes};

use crate::shape::Ref;
use indexmap::IndexSet;
use std::alloc::Global;
use tptp_base::{List, Memory};

// The numbers of the parents that came.
#[derive(Drop)]
pub struct Marks {
    lines: IndexSet<u32>,
    given: IndexSet<u32>,
}

impl Marks {
    // None yet.
    fn new(alloc: Global) -> Marks
        ensures { AreMembers result [] }
    {
        Marks {
            lines: IndexSet::new(alloc),
            given: IndexSet::new(alloc),
        }
    }

    // Notes a parent, and answers whether it is new.
    fn note(&mut self, parent: Ref) -> Result<bool, Memory>
        ensures new { IfOk result (λ is_new. is_new ≡ not (RefSets.noted self.old parent)) }
        ensures marks { OnOk result (Notes self.old parent self.new) }
    {
        match parent {
            Ref::Line(number) => Ok(self.lines.insert(number)?),
            Ref::Given(number) => Ok(self.given.insert(number)?),
        }
    }
}

// Parents in the order in which they came, no two of them equal.
#[derive(Drop)]
pub struct RefSet {
    marks: Marks,
    refs: List<Ref>,
}

impl RefSet {
    /// No parents yet.
    pub fn new(alloc: Global) -> RefSet
        ensures members { AreMembers result.marks result.refs }
        ensures refs { result.refs ≡ [] }
    {
        RefSet {
            marks: Marks::new(alloc),
            refs: List::new(alloc),
        }
    }

    // Adds a parent, unless it is there.
    fn with(mut self, parent: Ref) -> Result<RefSet, Memory>
        requires { AreMembers self.marks self.refs }
        ensures members { IfOk result (λ set. AreMembers set.marks set.refs) }
        ensures refs { IfOk result (λ set. set.refs ≡ with_ref self.refs parent) }
    {
        if !self.marks.note(parent)? {
            return Ok(self);
        }
        self.refs.push(parent)?;
        Ok(self)
    }

    /// Adds these parents in turn, unless they are there.
    pub fn with_all(self, parents: &[Ref]) -> Result<RefSet, Memory>
        requires { AreMembers self.marks self.refs }
        ensures members { IfOk result (λ set. AreMembers set.marks set.refs) }
        ensures refs { IfOk result (λ set. set.refs ≡ with_refs self.refs parents.now) }
    {
        let mut set = self;
        for parent in parents {
            set = set.with(*parent)?;
        }
        Ok(set)
    }

    /// The parents.
    pub fn into_refs(self) -> List<Ref>
        ensures { result ≡ self.refs }
    {
        self.refs
    }
}
