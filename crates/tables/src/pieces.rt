// Texts that a lexer is fed with in pieces.
use crate::tokens::listed;
use lexer_pieces::Lexer;
use std::alloc::Global;
use tptp_lexer::{LexFault, Style};

/// The tokens of a text that is fed in pieces of so many bytes, or the fault. Where a piece is refused, it is told
/// behind how many bytes.
pub fn fed(alloc: Global, text: &str, parts: &[&str]) -> Option<String> {
    let count: usize = parts.get(1)?.parse().ok()?;
    if count == 0 {
        return None;
    }
    let mut lexer = Lexer::new(alloc, 0, Style::Problem);
    let mut behind = 0usize;
    for piece in text.as_bytes().chunks(count) {
        behind = behind.saturating_add(piece.len());
        if let Err(fault) = lexer.feed(piece) {
            return refused(alloc, &mut lexer, behind, fault);
        }
    }
    listed(alloc, lexer.finish(alloc)).ok()
}

// The fault of a piece, if the lexer answers it from then on.
fn refused(alloc: Global, lexer: &mut Lexer, behind: usize, fault: LexFault) -> Option<String> {
    let Err(again) = lexer.feed(b"p") else {
        return None;
    };
    let Err(last) = lexer.finish(alloc) else {
        return None;
    };
    if again != fault || last != fault {
        return None;
    }
    let shown = listed(alloc, Err(fault)).ok()?;
    format!(in alloc; "behind {behind}: {shown}").ok()
}
