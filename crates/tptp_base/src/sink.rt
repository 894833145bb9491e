// Where bytes are written.
ghost use Rattle.std.specs.Prelude.{◌≡◌, ◌<◌, ◌≤◌, ℕ, List, length, take, IfOk, OnErr, IsErrOf};
ghost use Rattle.std.specs.declared.option.Option.{Option};
ghost use Rattle.tptp_base.specs.Count.{Rose};
ghost use Rattle.tptp_base.specs.Sink.{Takes};

use thiserror::Error;

/// Why a sink took no bytes.
#[derive(Clone, Copy, Debug, PartialEq, Eq, Error)]
pub enum SinkFault {
    /// The write failed.
    #[error("the write failed")]
    Failed,
    #[error("out of memory")]
    Memory,
}

/// Takes bytes, one piece behind the other.
pub trait Sink {
    /// The bytes taken so far, where the sink tells them.
    ghost taken: { Self → Option (List ℕ) };

    /// How often a write has failed.
    ghost faults: { Self → ℕ };

    /// Takes the first bytes of a piece, at least one if there is one. At `Err` it has taken none.
    fn write(&mut self, piece: &[u8]) -> Result<usize, SinkFault>
        ensures bound { IfOk result (λ count. count ≤ length piece.now) }
        ensures progress { IfOk result (λ count. 0 < length piece.now → 0 < count) }
        ensures ok { IfOk result (λ count. Takes (taken self.old) (taken self.new) (take count piece.now)) }
        ensures err { OnErr result (taken self.new ≡ taken self.old) }
        ensures failed { IsErrOf result SinkFault.Failed → Rose (faults self.old) (faults self.new) }
        ensures more_faults { faults self.old ≤ faults self.new };
}
