//! What leads a search: which clauses are looked at, which atom is taken freely, and which literals are resolved away. What it answers rests on none of
//! this.
use crate::literal::Literal;
use crate::order::Order;
use crate::plan::Plan;
use crate::trail::Trail;
use crate::watches::Watches;
use std::alloc::{AllocError, Global};

/// The watches of the clauses, the order of the atoms, and what is planned for the next learned clause.
#[derive(Drop)]
pub struct Guide {
    pub watches: Watches,
    pub order: Order,
    pub plan: Plan,
}

impl Guide {
    /// Before the first turn.
    pub fn new(alloc: Global, atoms: usize) -> Result<Guide, AllocError> {
        Ok(Guide {
            watches: Watches::new(alloc, atoms)?,
            order: Order::new(alloc, atoms)?,
            plan: Plan::new(alloc, atoms)?,
        })
    }

    /// Takes account of a clause that is learned, from a conflict in which these atoms and the clauses of these numbers
    /// took part.
    pub fn learn(
        &mut self,
        lits: &[Literal],
        atoms: &[usize],
        from: &[u64],
        trail: &Trail,
    ) -> Result<(), AllocError> {
        self.order.count(atoms);
        self.watches.shorten(trail.steps.len());
        self.watches.learn(lits, from, trail)
    }
}
