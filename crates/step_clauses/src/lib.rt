//! The clauses that a step is searched with: those of its parents and of the negation of its line, with a new function
//! in place of each existential variable; whether they are too many or too large, and whether there is room for the new
//! symbols.
#![tactic(auto)]

mod choosing;
mod clausal;
mod existentials;
mod input;
mod laws;
mod room;
mod skolemizing;
mod skolems;
mod ways;

pub use clausal::{Clausal, clausify};
pub use existentials::{Existential, existentials_of};
pub use input::{MAX_CLAUSES, MAX_WEIGHT, search_input};
pub use laws::skolemized_as_used;
pub use room::{has_room, wanted};
pub use skolemizing::skolemize;
pub use skolems::{Skolem, skolems_of, uses_of};
pub use ways::paths_of;
