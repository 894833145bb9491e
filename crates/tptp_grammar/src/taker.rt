//! What takes items as they are read.
ghost use Rattle.std.specs.Prelude.{◌≡◌, ◌++◌, List, OnOk};
ghost use Rattle.tptp_base.specs.declared.item.Item.{Item as item};

use tptp_base::{Item, List, Memory};

/// Takes items, one behind the other.
pub trait Taker {
    /// What it keeps of an item is a list of these.
    ghost Part: { Type 0 };

    /// What it keeps of an item.
    ghost parts: { item → List Part };

    /// What it has kept so far.
    ghost kept: { Self → List Part };

    /// Takes an item.
    fn take(&mut self, item: Item) -> Result<(), Memory>
        ensures { OnOk result (kept self.new ≡ kept self.old ++ parts item) };
}

impl Taker for List<Item> {
    ghost use Rattle.std.specs.Prelude.{[], ◌∷◌};
    ghost use Rattle.tptp_base.specs.declared.item.Item.{Item};

    ghost Part = { Item };

    ghost parts = { λ item. item ∷ [] };

    ghost kept = { λ items. items };

    fn take(&mut self, item: Item) -> Result<(), Memory> {
        self.push(item)?;
        Ok(())
    }
}
