// Names of formulas.
ghost use Rattle.std.specs.Prelude.{◌≡◌, IfOk};

use crate::{Memory, Text};
use std::alloc::Global;

/// The name of a formula. Two names are the same where both are words, or both integers, of one text: the integers `7`
/// and `007` differ, and so do the word `'7'` and the integer `7`.
#[derive(Debug, Drop)]
pub enum Name {
    /// A lower word, or the text of a quoted one.
    Word(Text),
    /// A number of sign and digits, as it was written.
    Integer(Text),
}

impl Name {
    /// The same name again.
    pub fn copy(&self, alloc: Global) -> Result<Name, Memory>
        ensures { IfOk result (λ copy. copy ≡ self.now) }
    {
        match self {
            Name::Word(text) => Ok(Name::Word(copy_text(alloc, text)?)),
            Name::Integer(text) => Ok(Name::Integer(copy_text(alloc, text)?)),
        }
    }
}

// The same text again.
fn copy_text(alloc: Global, text: &Text) -> Result<Text, Memory>
    ensures { IfOk result (λ copy. copy ≡ text.now) }
{
    Ok(Text::from_slice(alloc, text.as_slice())?)
}
