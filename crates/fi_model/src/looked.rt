// Which variables an answer rests on.
ghost use Rattle.std.specs.Prelude.{◌↔◌, ◌+◌, ℕ, IsTrue};
ghost use Rattle.fi_model.specs.code.Looks.{Sees};

// The bit of all variables from 63 on.
const FAR: u64 = 0x8000_0000_0000_0000;

/// Variables that were looked at. Each is named by how many binders away it is, and those from 63 on are as one.
#[derive(Clone, Copy)]
pub struct Looked {
    bits: u64,
}

impl Looked {
    /// No variable.
    pub fn none() -> Looked {
        Looked { bits: 0 }
    }

    /// The variable that many binders away.
    pub fn one(distance: u32) -> Looked
        ensures { Sees result distance }
    {
        if distance < 63 {
            Looked {
                bits: 1 << distance,
            }
        } else {
            Looked { bits: FAR }
        }
    }

    /// These and the others.
    pub fn with(self, other: Looked) -> Looked
        ensures these { (distance : ℕ) → Sees self distance → Sees result distance }
        ensures others { (distance : ℕ) → Sees other distance → Sees result distance }
    {
        Looked {
            bits: self.bits | other.bits,
        }
    }

    /// What they are outside of the innermost binder.
    pub fn outside(self) -> Looked
        ensures { (distance : ℕ) → Sees self (distance + 1) → Sees result distance }
    {
        Looked {
            bits: (self.bits >> 1) | (self.bits & FAR),
        }
    }

    /// Whether the variable of the innermost binder is among them.
    pub fn has_nearest(self) -> bool
        ensures { IsTrue result ↔ Sees self 0 }
    {
        self.bits & 1 == 1
    }
}
