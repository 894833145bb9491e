// What a problem denotes whose items are taken again, behind all their type lines.
ghost use Rattle.std.specs.Prelude.{◌≡◌, ◌∷◌, [], ◌++◌, ◌<◌, ◌^◌, Ok, IfOk, IfSome, OnOk, OnErr};
ghost use Rattle.sort_check.specs.Turns.{AreDenoted};
ghost use Rattle.sort_check.specs.Texts.{type_lines};
ghost use Rattle.sort_check.specs.Stages.{begin, AreReadAgain, StandsAgainAt};

use crate::fault::SortFault;
use crate::progress::{Denoted, Progress, Turn};
use crate::seen::Seen;
use crate::turns::read_line;
use std::alloc::Global;
use std::marker::Model;
use tptp_base::{Item, List, Memory};

/// The items of a problem that were taken again so far, and what they denote behind the type lines of all. No item is
/// kept.
#[derive(Drop)]
pub struct Again {
    alloc: Global,
    whole: Seen,
    seen: Seen,
    turn: Turn,
    progress: Progress,
}

impl Model for Again {
    ghost use Rattle.sort_check.specs.Turns.{TakenAgain, taken_again_code};
    ghost use Rattle.sort_check.specs.Stages.{StandsAgainAt};

    ghost Value = { TakenAgain };

    ghost coded = { taken_again_code };

    ghost view = { λ t. record { whole = t.whole.items; items = t.seen.items; keeps = t.progress.keeps } };

    ghost invariant = { λ t. StandsAgainAt t.whole.items t.seen.items t.progress t.turn };
}

impl Again {
    /// No items yet, behind the type lines of these.
    #[tactic(auto, using(crate::proofs::Turning::again_begins))]
    pub fn behind(alloc: Global, whole: Seen, progress: Progress) -> Again
        requires { type_lines whole.items begin
            ≡ Ok (tt, record { vocabulary = progress.signature; names = progress.names }) }
        ensures { result ≡ record { whole = whole.items; items = []; keeps = progress.keeps } }
    {
        let Progress {
            signature,
            typed,
            names,
            keeps,
            ..
        } = progress;
        Again {
            alloc,
            whole,
            seen: Seen::nothing(),
            turn: Turn::Lines,
            progress: Progress {
                signature,
                typed,
                names,
                conjectured: false,
                number: 0,
                keeps,
                lines: List::new(alloc),
            },
        }
    }

    /// Takes an item. Where memory runs out nothing is known any more.
    pub fn take(&mut self, item: &Item) -> Result<(), Memory>
        ensures ok { OnOk result (self.new ≡ record self.old { items = self.old.items ++ item.now ∷ [] }) }
        ensures err { OnErr result (self.new ≡ self.old) }
    {
        let turn = std::mem::replace(&mut self.turn, Turn::Unknown);
        let next = turn_again(
            self.alloc,
            &self.whole,
            &self.seen,
            item,
            turn,
            &mut self.progress,
        )?;
        self.seen = Seen::with(&self.seen, item);
        self.turn = next;
        Ok(())
    }

    /// Whether lines are kept.
    pub fn keeps(&self) -> bool
        ensures { result ≡ self.now.keeps }
    {
        self.progress.keeps
    }

    /// What the items denote, or their first fault, once all of them were taken. Nothing where memory ran out.
    #[tactic(auto, using(crate::proofs::Turning::again_denotes, crate::proofs::Turning::again_refused))]
    pub fn finish(self) -> Option<Result<Denoted, SortFault>>
        requires { self.items ≡ self.whole }
        ensures { IfSome result (λ found. AreDenoted (record { items = self.items; keeps = self.keeps }) found) }
    {
        let Again { turn, progress, .. } = self;
        let Progress {
            lines,
            signature,
            ..
        } = progress;
        match turn {
            Turn::Lines => Some(Ok(Denoted { lines, signature })),
            Turn::Faulty(fault) => Some(Err(fault)),
            Turn::Unknown => None,
        }
    }
}

// Takes an item again, behind those that were seen.
#[tactic(auto, using(crate::proofs::Turning::again_stays))]
fn turn_again(
    alloc: Global,
    whole: &Seen,
    seen: &Seen,
    item: &Item,
    turn: Turn,
    progress: &mut Progress,
) -> Result<Turn, Memory>
    requires { StandsAgainAt whole.now.items seen.now.items progress.old turn }
    ensures stands { IfOk result (λ next.
        StandsAgainAt whole.now.items (seen.now.items ++ item.now ∷ []) progress.new next) }
    ensures keeps { progress.new.keeps ≡ progress.old.keeps }
{
    match turn {
        Turn::Lines => turn_line(alloc, whole, seen, item, progress),
        Turn::Faulty(fault) => Ok(Turn::Faulty(fault)),
        Turn::Unknown => Ok(Turn::Unknown),
    }
}

// Takes an item again, behind formulas without a fault.
#[tactic(auto, using(crate::proofs::Turning::again_goes))]
fn turn_line(
    alloc: Global,
    whole: &Seen,
    seen: &Seen,
    item: &Item,
    progress: &mut Progress,
) -> Result<Turn, Memory>
    requires { StandsAgainAt whole.now.items seen.now.items progress.old Turn.Lines }
    ensures stands { IfOk result (λ next.
        StandsAgainAt whole.now.items (seen.now.items ++ item.now ∷ []) progress.new next) }
    ensures keeps { progress.new.keeps ≡ progress.old.keeps }
{
    if progress.number == u32::MAX {
        return Err(Memory);
    }
    match read_line(alloc, item, progress)? {
        Some(fault) => Ok(Turn::Faulty(fault)),
        None => Ok(Turn::Lines),
    }
}
