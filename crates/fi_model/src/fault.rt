// Why items are no model.
ghost use Rattle.std.specs.Prelude.{◌≡◌};
ghost use Rattle.fi_model.specs.declared.fault.ModelFault.TheVariants.{Memory as wanting};

use std::alloc::AllocError;
use thiserror::Error;
use tptp_base::{Memory, Name, Place, Text};

/// Why items are no model of a signature: the first fault, in this order.
#[derive(Debug, Drop, Error)]
pub enum ModelFault {
    /// An include, or a formula that is no sentence of a model. The place of its first token.
    #[error("not a model formula")]
    Shape(Place),
    /// A sort that the signature hasn't, or that has a second domain or none, or a domain in which an element stands
    /// twice. The name of the sort.
    #[error("wrong domain")]
    Domain(Text),
    /// An entry of a symbol of the signature with an element that is not of the sort wanted. The place and the name of
    /// its sentence.
    #[error("wrong element")]
    Element(Place, Name),
    /// An entry of a symbol at arguments at which an earlier one stands. The place and the name of its sentence.
    #[error("second value")]
    Double(Place, Name),
    /// A symbol that has no entry at some arguments. Its name.
    #[error("no value for some arguments")]
    Missing(Text),
    #[error("out of memory")]
    Memory,
}

impl From<AllocError> for ModelFault {
    ghost from_gives = { λ _ e. e ≡ wanting };

    fn from(_: AllocError) -> ModelFault {
        ModelFault::Memory
    }
}

impl From<Memory> for ModelFault {
    ghost from_gives = { λ _ e. e ≡ wanting };

    fn from(_: Memory) -> ModelFault {
        ModelFault::Memory
    }
}
