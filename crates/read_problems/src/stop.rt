// How a command ends: with an answer, or before it has one.
ghost use Rattle.std.specs.Prelude.{◌≡◌, string_bytes};
ghost use Rattle.read_problems.specs.declared.stop.Halt.TheVariants.{Stopped};
ghost use Rattle.read_problems.specs.declared.stop.Stop.TheVariants.{Memory as StopMemory};
ghost use Rattle.read_problems.specs.Stop.{stop_of};

use std::alloc::AllocError;
use tptp_base::{Memory, SinkFault, Text};

/// A status and the text that goes with it.
#[derive(Drop)]
pub struct Answer {
    pub status: u8,
    pub text: Text,
}

impl Answer {
    /// A status with a printed text.
    pub fn new(status: u8, text: String) -> Answer
        ensures status { result.status ≡ status }
        ensures text { result.text ≡ string_bytes text }
    {
        Answer {
            status,
            text: Text::from_vec(text.into_bytes()),
        }
    }
}

/// An answer with a printed text, as bytes.
pub fn ended(status: u8, text: Vec<u8>) -> Answer
    ensures status { result.status ≡ status }
    ensures text { result.text ≡ text.items }
{
    Answer {
        status,
        text: Text::from_vec(text),
    }
}

/// A fault of the outside, or want of memory.
#[derive(Clone, Copy, PartialEq, Eq)]
pub enum Stop {
    Store,
    Sink,
    Memory,
}

/// Why a command ended early: its input is refused, or it was stopped.
#[derive(Drop)]
pub enum Halt {
    Refused(Answer),
    Stopped(Stop),
}

impl From<AllocError> for Stop {
    ghost from_gives = { λ _ stop. stop ≡ StopMemory };

    fn from(_: AllocError) -> Self {
        Stop::Memory
    }
}

impl From<Memory> for Stop {
    ghost from_gives = { λ _ stop. stop ≡ StopMemory };

    fn from(_: Memory) -> Self {
        Stop::Memory
    }
}

impl From<SinkFault> for Stop {
    ghost from_gives = { λ fault stop. stop ≡ stop_of fault };

    fn from(fault: SinkFault) -> Self {
        match fault {
            SinkFault::Failed => Stop::Sink,
            SinkFault::Memory => Stop::Memory,
        }
    }
}

impl From<AllocError> for Halt {
    ghost from_gives = { λ _ halt. halt ≡ Stopped StopMemory };

    fn from(_: AllocError) -> Self {
        Halt::Stopped(Stop::Memory)
    }
}

impl From<Memory> for Halt {
    ghost from_gives = { λ _ halt. halt ≡ Stopped StopMemory };

    fn from(_: Memory) -> Self {
        Halt::Stopped(Stop::Memory)
    }
}

impl From<Stop> for Halt {
    ghost from_gives = { λ stop halt. halt ≡ Stopped stop };

    fn from(stop: Stop) -> Self {
        Halt::Stopped(stop)
    }
}

impl From<SinkFault> for Halt {
    ghost from_gives = { λ fault halt. halt ≡ Stopped (stop_of fault) };

    fn from(fault: SinkFault) -> Self {
        Halt::Stopped(Stop::from(fault))
    }
}
