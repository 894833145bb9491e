// The lexer that takes a text in pieces.
ghost use Rattle.std.specs.Prelude.{◌≡◌, ◌<◌, ◌≤◌, ◌++◌, ◌⊎◌, ◌^◌, ℕ, [], length, IfSome, OnOk, IfErr, Some, None, Ok, Err, true, false};
ghost use Rattle.tptp_base.specs.Place.{place_of};
ghost use Rattle.tptp_base.specs.declared.place.Place.{Place as Spot};
ghost use Rattle.tptp_lexer.specs.Answer.{Answers, whole};
ghost use Rattle.lexer_pieces.specs.Pieces.{Shows, ShowsNone, StopsAnyway, Takes, unfed};
ghost use Rattle.lexer_pieces.specs.Reached.{IsReached};

use crate::settle::{Settled, settle};
use std::alloc::Global;
use std::marker::Model;
use tptp_base::{FILE_SIZE, LimitName, Region, place_at};
use tptp_lexer::{LexFault, Style, Tokens, tokens};

/// A lexer that is fed with the pieces of a text. It holds the text, and no list of tokens.
#[derive(Drop)]
pub struct Lexer {
    file: u32,
    style: Style,
    text: Vec<u8>,
    // How many bytes of the text stay cut as they are, whatever follows.
    at: usize,
    fault: Option<LexFault>,
}

impl Model for Lexer {
    ghost use Rattle.std.specs.Prelude.{◌≡◌, ◌≤◌, None, length};
    ghost use Rattle.tptp_base.specs.declared.read.TheConstants.{FILE_SIZE as file_size};
    ghost use Rattle.lexer_pieces.specs.Pieces.{Fed};
    ghost use Rattle.lexer_pieces.specs.Reached.{IsReached};

    ghost Value = { Fed };

    ghost view = { λ it. record { file = it.file; style = it.style; text = it.text.items; fault = it.fault } };

    ghost invariant = { λ it. IsReached it.style it.text.items it.at
        × (it.fault ≡ None → length it.text.items ≤ file_size) };
}

impl Lexer {
    /// A lexer that has seen nothing. The number of the file is that of its places. It takes no memory.
    pub fn new(alloc: Global, file: u32, style: Style) -> Lexer
        ensures { result ≡ unfed file style }
    {
        Lexer {
            file,
            style,
            text: Vec::new(alloc),
            at: 0,
            fault: None,
        }
    }

    /// Takes a further piece. It takes the time of its bytes and of those of a token that is open before it.
    ///
    /// # Errors
    ///
    /// `Limit` where the pieces have more bytes than a file may have, else `Byte` at the first place where no token, blank
    /// or comment begins, as soon as the pieces so far show it. After a refusal every later call answers the same fault.
    pub fn feed(&mut self, piece: &[u8]) -> Result<(), LexFault>
        // After a refusal the same fault is answered.
        ensures again { IfSome self.old.fault (λ fault. (result ≡ Err fault) × (self.new ≡ self.old)) }
        // A piece that is taken stands behind the others, and they show no fault.
        ensures taken { OnOk result (Takes self.old piece.now self.new) }
        // What is refused is shown, and is answered from then on.
        ensures refused { IfErr result (λ fault. (self.new.fault ≡ Some fault)
            × (self.old.fault ≡ None → Shows self.old.file self.old.style (self.old.text ++ piece.now) fault)) }
        ensures same { (self.new.file ≡ self.old.file) × (self.new.style ≡ self.old.style) }
    {
        if let Some(fault) = self.fault {
            return Err(fault);
        }
        match self.take(piece) {
            Ok(()) => Ok(()),
            Err(fault) => {
                self.fault = Some(fault);
                Err(fault)
            }
        }
    }

    // Takes a further piece, where none was refused.
    fn take(&mut self, piece: &[u8]) -> Result<(), LexFault>
        requires { self.old.fault ≡ None }
        ensures taken { OnOk result (Takes self.old piece.now self.new) }
        ensures shown { IfErr result (λ fault.
            Shows self.old.file self.old.style (self.old.text ++ piece.now) fault) }
        ensures same { (self.new.file ≡ self.old.file) × (self.new.style ≡ self.old.style) }
    {
        if piece.len() as u64 > FILE_SIZE - self.text.len() as u64 {
            return Err(LexFault::Limit(LimitName::FileSize));
        }
        self.text.extend_from_slice(piece)?;
        let text = self.text.as_slice();
        let reached = reach(self.style, text, self.at);
        self.at = reached.at;
        if reached.stops {
            Err(LexFault::Byte(place_at(self.file, text, reached.at as u64)))
        } else {
            Ok(())
        }
    }

    /// The tokens of all pieces joined, as `tokens` gives them.
    ///
    /// # Errors
    ///
    /// The fault of a refusal, or those of `tokens`.
    pub fn finish(&self, alloc: Global) -> Result<Tokens<'_>, LexFault>
        ensures refused { IfSome self.now.fault (λ fault. result ≡ Err fault) }
        ensures answer { self.now.fault ≡ None
            → Answers self.now.file self.now.text (whole self.now.text) self.now.style result }
    {
        match self.fault {
            Some(fault) => Err(fault),
            None => {
                let text = self.text.as_slice();
                let region = Region {
                    start: 0,
                    end: text.len() as u64,
                };
                tokens(alloc, self.file, text, region, self.style)
            }
        }
    }
}

// How far a text stays cut as it is, and whether it stops there.
#[derive(Clone, Copy)]
struct Reached {
    at: usize,
    stops: bool,
}

// Goes on from an offset as far as the text stays cut as it is, whatever follows.
fn reach(style: Style, text: &[u8], from: usize) -> Reached
    requires { IsReached style text.now from }
    ensures reached { IsReached style text.now result.at }
    ensures stops { result.stops ≡ true
        → (file : ℕ) → StopsAnyway file style text.now (place_of file text.now result.at) }
    ensures goes { result.stops ≡ false → (file : ℕ) (place : Spot) → StopsAnyway file style text.now place → ⊥ }
{
    let mut at = from;
    while at < text.len() {
        match settle(style, &text[at..]) {
            Settled::On(len) => at += len,
            Settled::Waits => return Reached { at, stops: false },
            Settled::Stops => return Reached { at, stops: true },
        }
    }
    Reached { at, stops: false }
}
