//! The members that wait for their place.
ghost use Rattle.std.specs.Prelude.{◌≡◌, [], MatchOption, OnOk, IsTrue, map};
ghost use Rattle.std.specs.List.{Contains};
ghost use Rattle.saturation.specs.declared.member.Member.{Member as Waits};
ghost use Rattle.clause_order.specs.Weights.{clause_weight};
ghost use Rattle.saturation.specs.code.Search.{IsTaken, HasJoined};

use crate::waiting::Waiting;
use indexmap::IndexMap;
use std::alloc::Global;
use std::collections::BTreeMap;
use std::marker::Model;
use tptp_base::Memory;

/// Members by weight, and those of one weight by the order in which they came. By the sum of a clause it finds one that
/// has come and may wait.
#[derive(Drop)]
pub struct Queue {
    waiting: BTreeMap<(u64, u64), Waiting>,
    keys: IndexMap<u64, (u64, u64)>,
    next: u64,
}

impl Model for Queue {
    ghost use Rattle.std.specs.Prelude.{List, map};
    ghost use Rattle.std.specs.Coded.{codes};
    ghost use Rattle.saturation.specs.declared.member.Member.{Member as Waits};
    ghost use Rattle.saturation.specs.contracts.member.Member as member;
    ghost use Rattle.saturation.specs.code.Waiting.{AreWaiting};

    ghost Value = { List Waits };

    ghost coded = { Prim.hlevel (codes, member.the_row.coded) };

    ghost view = { λ q. map (λ e. e.1) q.waiting.entries };

    ghost invariant = { λ q. AreWaiting q.waiting.entries q.next };
}

impl Queue {
    /// A queue in which nothing waits.
    pub fn new(alloc: Global) -> Queue
        ensures { result ≡ [] }
    {
        Queue {
            waiting: BTreeMap::new(alloc),
            keys: IndexMap::new(alloc),
            next: 0,
        }
    }

    /// Whether a member waits that has the clause of this one, which has this sum. One may be overlooked.
    pub fn has(&self, sum: u64, member: &Waiting) -> bool
        ensures { IsTrue result → (m : Waits) × Contains self.now m × (m.clause ≡ member.now.clause) }
    {
        match self.keys.get(&sum) {
            Some(key) => self.has_at(*key, member),
            None => false,
        }
    }

    // Whether the member of this weight and number waits, and has the clause of the other.
    fn has_at(&self, key: (u64, u64), member: &Waiting) -> bool
        ensures { IsTrue result → (m : Waits) × Contains self.now m × (m.clause ≡ member.now.clause) }
    {
        match self.waiting.get(&key) {
            Some(waiting) => waiting.has_clause_of(member),
            None => false,
        }
    }

    /// Lets one more wait, of this weight, with a clause of this sum.
    pub fn push(&mut self, weight: u64, sum: u64, member: Waiting) -> Result<(), Memory>
        requires { weight ≡ clause_weight member.clause }
        ensures { OnOk result (HasJoined self.old self.new member) }
    {
        if self.next == u64::MAX {
            return Err(Memory);
        }
        let key = (weight, self.next);
        self.keys.insert(sum, key)?;
        self.waiting.insert(key, member)?;
        self.next += 1;
        Ok(())
    }

    /// Takes the lightest.
    pub fn pop(&mut self) -> Option<Waiting>
        ensures { MatchOption result ((self.old ≡ []) × (self.new ≡ [])) (IsTaken self.old self.new) }
    {
        let (_, member) = self.waiting.pop_first()?;
        Some(member)
    }
}
