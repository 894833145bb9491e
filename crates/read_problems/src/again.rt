// Items of a text that are taken again, behind all their type lines.
ghost use Rattle.std.specs.Prelude.{◌≡◌, [], Ok, Err, IfOk, IfErr, IfSome};
ghost use Rattle.tptp_grammar.specs.Texts.{IsParsed};
ghost use Rattle.sort_check.specs.Turns.{AreDenoted};

use sort_check::{Again, Denoted, SortFault};
use std::alloc::Global;
use tptp_base::{Item, Memory};
use tptp_grammar::{GrammarFault, Taker, parse_into};
use tptp_lexer::Tokens;

/// The items that were taken again.
#[derive(Drop)]
pub struct Retaken {
    pub items: Again,
}

impl Taker for Retaken {
    ghost use Rattle.std.specs.Prelude.{◌⊎◌, [], ◌∷◌, map};
    ghost use Rattle.std.proofs.Common.{inl, inr};
    ghost use Rattle.tptp_base.specs.declared.item.Item.{Item};
    ghost use Rattle.sort_check.specs.Turns.{TakenAgain};

    ghost Part = { TakenAgain ⊎ Item };

    ghost parts = { λ item. inr item ∷ [] };

    ghost kept = { λ taken. inl (record taken.items { items = [] })
        ∷ map (λ (item : Item). inr item) taken.items.items };

    #[tactic(auto, using(crate::proofs::Takers::again_more))]
    fn take(&mut self, item: Item) -> Result<(), Memory> {
        self.items.take(&item)
    }
}

/// What the items denote that the tokens spell, or their first fault. They are taken again, behind all type lines.
/// Nothing where that is not known.
///
/// # Errors
///
/// The first fault, as `parse` tells it.
pub fn take_again(
    alloc: Global,
    tokens: &Tokens<'_>,
    none: Again,
) -> Result<Option<Result<Denoted, SortFault>>, GrammarFault>
    requires none { none.items ≡ [] }
    requires parsed { IsParsed tokens.now (Ok none.whole) }
    ensures denoted { IfOk result (λ found. IfSome found (λ found.
        AreDenoted (record { items = none.whole; keeps = none.keeps }) found)) }
    ensures fault { IfErr result (λ fault. IsParsed tokens.now (Err fault)) }
{
    let mut taken = Retaken { items: none };
    parse_into(alloc, tokens, &mut taken)?;
    Ok(taken.items.finish())
}
