ghost use Rattle.std.specs.Prelude.{◌≡◌, ◌++◌, OnOk};
ghost use Rattle.std.specs.Option.{option_to_list};

use packed_clauses::{PackedClause, PackedTerms};
use tptp_base::{List, Memory};

/// A clause that an inference made, and the images of the variables of its premises: those of the first premise's
/// variables, that of variable 0 first, and then those of the second one's, if there are two. They are terms over the
/// variables of the clause. Both are packed, since a search makes many and looks at few again.
#[derive(Drop)]
pub struct Made {
    pub clause: PackedClause,
    pub subst: PackedTerms,
}

/// Adds what was found, if anything was.
pub fn keep(made: &mut List<Made>, found: Option<Made>) -> Result<(), Memory>
    ensures { OnOk result (made.new ≡ made.old ++ option_to_list found) }
{
    if let Some(found) = found {
        made.push(found)?;
    }
    Ok(())
}
