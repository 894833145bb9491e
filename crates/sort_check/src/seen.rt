// The items that were taken.
ghost use Rattle.std.specs.Prelude.{◌≡◌, List, [], ◌∷◌, ◌++◌};
ghost use Rattle.std.specs.Borrow.{ftrue};
ghost use Rattle.std.specs.Coded.{coded_list};
ghost use Rattle.tptp_base.specs.contracts.item.Item.{the_row};
ghost use Rattle.tptp_base.specs.declared.item.Item.{Item as item};

use std::marker::Model;
use tptp_base::Item;

/// Items, one behind the other. They exist only in proofs and take no memory.
#[derive(Drop)]
pub struct Seen {
    pub ghost items: { List item } by { coded_list the_row.coded },
}

impl Model for Seen {
    ghost also_owns = { λ _. ftrue };
}

impl Seen {
    /// No items.
    pub fn nothing() -> Seen
        ensures { result.items ≡ [] }
    {
        Seen {}
    }

    /// These items and a further one.
    pub fn with(_before: &Seen, _item: &Item) -> Seen
        ensures { result.items ≡ _before.now.items ++ _item.now ∷ [] }
    {
        Seen {}
    }
}
