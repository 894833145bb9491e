// The items of lines.
ghost use Rattle.std.specs.Prelude.{◌≡◌, IfOk};
ghost use Rattle.derivation_items.specs.Items.{line_item_of};

use crate::line::LineSource;
use crate::sources::source_of;
use crate::typings::FIRST_PLACE;
use crate::words::printable;
use std::alloc::Global;
use tptp_base::{Annotated, Body, Boxed, Item, Lang, Memory, Name, Role, Surface, Text};

/// The item of a line of this name, formula and source, in a derivation from the problem of that file.
pub fn line_item(
    alloc: Global,
    file: &[u8],
    name: &[u8],
    formula: Surface,
    source: &LineSource,
) -> Result<Item, Memory>
    ensures { IfOk result (λ item. item ≡ line_item_of file.now name.now formula source.now) }
{
    let file = printable(alloc, file)?;
    let source = source_of(alloc, file.as_slice(), source)?;
    let name = Text::from_slice(alloc, name)?;
    let formula = Annotated {
        place: FIRST_PLACE,
        lang: Lang::Tff,
        name: Name::Word(name),
        role: Role::Plain,
        body: Body::Logic(formula),
        source: Some(source),
        info: None,
    };
    Ok(Item::Formula(Boxed::new(alloc, formula)?))
}
