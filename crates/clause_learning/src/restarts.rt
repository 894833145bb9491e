//! When a search gives up what it took freely, and goes on with what it has learned.
ghost use Rattle.std.specs.Prelude.{◌≡◌, ◌<◌, suc, IsTrue};

/// How many restarts are left; how many conflicts there were since the last one; and from what is computed with how many
/// the next one comes. That is a multiple of the next number of Luby's sequence 1, 1, 2, 1, 1, 2, 4, 1, .., in which the
/// powers of two that divide a number follow one another, for each number in turn.
#[derive(Clone, Copy, Drop)]
pub struct Restarts {
    pub left: usize,
    pub conflicts: usize,
    pub number: usize,
    pub quotient: usize,
    pub power: usize,
}

// With how many conflicts the first restart comes.
const SHORTEST: usize = 64;

impl Restarts {
    /// Before the first conflict.
    pub fn new() -> Restarts {
        Restarts {
            left: usize::MAX,
            conflicts: 0,
            number: 1,
            quotient: 1,
            power: 1,
        }
    }

    /// Counts a conflict.
    pub fn count(&mut self)
        ensures { self.new.left ≡ self.old.left }
    {
        self.conflicts = self.conflicts.saturating_add(1);
    }

    /// Whether it is time for a restart.
    pub fn is_due(&self) -> bool
        ensures { IsTrue result → 0 < self.now.left }
    {
        self.left > 0 && self.conflicts >= self.power.saturating_mul(SHORTEST)
    }

    /// Counts a restart.
    pub fn restart(&mut self)
        requires { 0 < self.old.left }
        ensures { suc self.new.left ≡ self.old.left }
    {
        self.left -= 1;
        self.conflicts = 0;
        if self.quotient % 2 == 0 {
            self.quotient /= 2;
            self.power = self.power.saturating_mul(2);
        } else {
            self.number = self.number.saturating_add(1);
            self.quotient = self.number;
            self.power = 1;
        }
    }
}
