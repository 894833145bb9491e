// What a problem denotes whose items are taken one behind the other.
ghost use Rattle.std.specs.Prelude.{◌≡◌, ◌∷◌, [], ◌++◌, IfOk, IfSome, OnOk, OnErr};
ghost use Rattle.sort_check.specs.Turns.{AreDenoted, HaveNoInclude};

use crate::again::Again;
use crate::fault::SortFault;
use crate::front::Extent;
use crate::names::Names;
use crate::namesakes::Namesakes;
use crate::progress::{Denoted, Progress, Stage};
use crate::seen::Seen;
use crate::turns::turn;
use fof_terms::Signature;
use std::alloc::Global;
use std::marker::Model;
use tptp_base::{Item, List, Memory};

/// The items of a problem that were taken so far, and what they denote. No item is kept.
///
/// An item that comes behind a fault is taken too: the first fault stays the first one. From a type line behind another
/// formula on type lines alone are taken, and what the items denote is known when they are taken again. Where an include
/// comes nothing is known any more.
#[derive(Drop)]
pub struct InTurn {
    alloc: Global,
    seen: Seen,
    stage: Stage,
    progress: Progress,
}

impl Model for InTurn {
    ghost use Rattle.sort_check.specs.Turns.{Taken, taken_code};
    ghost use Rattle.sort_check.specs.Stages.{StandsAt};

    ghost Value = { Taken };

    ghost coded = { taken_code };

    ghost view = { λ t. record { items = t.seen.items; keeps = t.progress.keeps } };

    ghost invariant = { λ t. StandsAt t.seen.items t.progress t.stage };
}

impl InTurn {
    /// No items yet. Lines are kept or let go.
    #[tactic(auto, using(crate::proofs::Turning::begins))]
    pub fn new(alloc: Global, keeps: bool) -> Result<InTurn, Memory>
        ensures { IfOk result (λ none. none ≡ record { items = []; keeps = keeps }) }
    {
        let signature = Signature::new(alloc)?;
        let namesakes = Namesakes::of(alloc, &signature)?;
        let typed = Extent::of(&signature);
        Ok(InTurn {
            alloc,
            seen: Seen::nothing(),
            stage: Stage::Types(namesakes),
            progress: Progress {
                signature,
                typed,
                names: Names::new(alloc),
                conjectured: false,
                number: 0,
                keeps,
                lines: List::new(alloc),
            },
        })
    }

    /// Takes an item. Where memory runs out nothing is known any more.
    pub fn take(&mut self, item: &Item) -> Result<(), Memory>
        ensures ok { OnOk result (self.new ≡ record self.old { items = self.old.items ++ item.now ∷ [] }) }
        ensures err { OnErr result (self.new ≡ self.old) }
    {
        let stage = std::mem::replace(&mut self.stage, Stage::Unknown);
        let next = turn(self.alloc, &self.seen, item, stage, &mut self.progress)?;
        self.seen = Seen::with(&self.seen, item);
        self.stage = next;
        Ok(())
    }

    /// Whether lines are kept.
    pub fn keeps(&self) -> bool
        ensures { result ≡ self.now.keeps }
    {
        self.progress.keeps
    }

    /// Whether nothing is known any more.
    pub fn is_lost(&self) -> bool {
        matches!(self.stage, Stage::Unknown)
    }

    /// Whether a type line stands behind another formula, so that the items have to be taken again.
    pub fn is_late(&self) -> bool {
        matches!(self.stage, Stage::Late(_))
    }

    /// The same items, to be taken again behind all their type lines. Nothing where no type line stands behind another
    /// formula, or where one has a fault.
    pub fn again(self) -> Option<Again>
        ensures again { IfSome result (λ again. again
            ≡ record { whole = self.items; items = []; keeps = self.keeps }) }
        ensures whole { IfSome result (λ again. HaveNoInclude again.whole) }
    {
        let InTurn {
            alloc,
            seen,
            stage,
            progress,
        } = self;
        match stage {
            Stage::Late(_) => Some(Again::behind(alloc, seen, progress)),
            _ => None,
        }
    }

    /// What the items denote, or their first fault. Nothing where that is not known.
    #[tactic(auto, using(crate::proofs::Turning::lines_denote, crate::proofs::Turning::types_denote, crate::proofs::Turning::mistyped_denote, crate::proofs::Turning::faulty_denote))]
    pub fn finish(self) -> Option<Result<Denoted, SortFault>>
        ensures denoted { IfSome result (λ found. AreDenoted self found) }
        ensures whole { IfSome result (λ found. HaveNoInclude self.items) }
    {
        let InTurn {
            stage,
            progress,
            ..
        } = self;
        let Progress {
            lines,
            signature,
            ..
        } = progress;
        match stage {
            Stage::Types(_) => Some(Ok(Denoted { lines, signature })),
            Stage::Lines => Some(Ok(Denoted { lines, signature })),
            Stage::Mistyped(fault) => Some(Err(fault)),
            Stage::Faulty(fault) => Some(Err(fault)),
            Stage::Late(_) | Stage::Unknown => None,
        }
    }
}
