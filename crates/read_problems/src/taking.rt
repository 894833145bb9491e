// Items of a problem that are taken as they are read.
ghost use Rattle.std.specs.Prelude.{◌≡◌, ◌+◌, ◌∷◌, [], Ok, Err, IfOk, IfErr, IfSome, count_by};
ghost use Rattle.tptp_base.specs.declared.item.Item.{Item as item_of};
ghost use Rattle.tptp_grammar.specs.Texts.{IsParsed};
ghost use Rattle.tstp_graph.specs.Lines.{is_formula};

use sort_check::InTurn;
use std::alloc::Global;
use tptp_base::{Item, Memory};
use tptp_grammar::{GrammarFault, Taker, parse_into};
use tptp_lexer::Tokens;

/// The items that were taken, and how many of them are formulas.
#[derive(Drop)]
pub struct Taken {
    pub items: InTurn,
    pub formulas: usize,
    pub ghost counted: { formulas ≡ count_by is_formula items.items },
}

impl Taken {
    /// No items yet. Lines are kept or let go.
    pub fn nothing(alloc: Global, keeps: bool) -> Result<Taken, Memory>
        ensures { IfOk result (λ none. none.items ≡ record { items = []; keeps = keeps }) }
    {
        let items = InTurn::new(alloc, keeps)?;
        Ok(Taken { items, formulas: 0 })
    }
}

impl Taker for Taken {
    ghost use Rattle.std.specs.Prelude.{◌⊎◌, Bool, [], ◌∷◌, map};
    ghost use Rattle.std.proofs.Common.{inl, inr};
    ghost use Rattle.tptp_base.specs.declared.item.Item.{Item};

    ghost Part = { Bool ⊎ Item };

    ghost parts = { λ item. inr item ∷ [] };

    ghost kept = { λ taken. inl taken.items.keeps ∷ map (λ (item : Item). inr item) taken.items.items };

    #[tactic(auto, using(crate::proofs::Takers::turn_more))]
    fn take(&mut self, item: Item) -> Result<(), Memory> {
        let formulas = count_on(self.formulas, &item)?;
        self.items.take(&item)?;
        self.formulas = formulas;
        if self.items.is_lost() {
            return Err(Memory);
        }
        Ok(())
    }
}

// So many formulas, and the item if it is one.
fn count_on(count: usize, item: &Item) -> Result<usize, Memory>
    ensures { IfOk result (λ more. more ≡ count + count_by is_formula (item.now ∷ [])) }
{
    match item {
        Item::Formula(_) => match count.checked_add(1) {
            Some(more) => Ok(more),
            None => Err(Memory),
        },
        Item::Comment(_) | Item::Include(_) => Ok(count),
    }
}

/// All items that the tokens spell, taken one behind the other. Nothing where an include is among them.
///
/// # Errors
///
/// The first fault, as `parse` tells it.
pub fn take_all(
    alloc: Global,
    tokens: &Tokens<'_>,
    none: Taken,
) -> Result<Option<Taken>, GrammarFault>
    requires { none.items.items ≡ [] }
    ensures parsed { IfOk result (λ found. IfSome found (λ taken. IsParsed tokens.now (Ok taken.items.items))) }
    ensures keeps { IfOk result (λ found. IfSome found (λ taken. taken.items.keeps ≡ none.items.keeps)) }
    ensures fault { IfErr result (λ fault. IsParsed tokens.now (Err fault)) }
{
    let mut taken = none;
    match parse_into(alloc, tokens, &mut taken) {
        Ok(()) => Ok(Some(taken)),
        Err(_) if taken.items.is_lost() => Ok(None),
        Err(fault) => Err(fault),
    }
}
