// The lines among items.
ghost use Rattle.std.specs.Prelude.{◌≡◌, ◌<◌, ◌≤◌, ◌^◌, length, map, count_by};
ghost use Rattle.std.specs.Option.{option_copied};
ghost use Rattle.tptp_base.specs.Roles.{is_typing};
ghost use Rattle.tstp_graph.specs.Lines;
ghost use Rattle.tstp_graph.specs.Lines.{formula_of};

use tptp_base::{Annotated, Item, Role};

/// The most formulas of a derivation.
pub const MOST_FORMULAS: usize = 1_048_576;

/// The formula that an item is, if it is one and has role type or hasn't.
pub fn formula_of(item: &Item, is_type: bool) -> Option<&Annotated>
    ensures { option_copied result ≡ formula_of is_type item.now }
{
    match item {
        Item::Formula(formula) => {
            let formula = formula.get();
            if is_typing(formula.role) == is_type {
                Some(formula)
            } else {
                None
            }
        }
        Item::Comment(_) => None,
        Item::Include(_) => None,
    }
}

/// Whether it is role type.
pub fn is_typing(role: Role) -> bool
    ensures { result ≡ is_typing role }
{
    matches!(role, Role::Typing)
}

/// How many formulas there are.
pub fn formula_count(items: &[Item]) -> usize
    ensures { result ≡ count_by Lines.is_formula items.now }
{
    let mut count = 0;
    for item in items {
        count += usize::from(is_formula(item));
    }
    count
}

// Whether it is a formula.
fn is_formula(item: &Item) -> bool
    ensures { result ≡ Lines.is_formula item.now }
{
    matches!(item, Item::Formula(_))
}
