// Prover's outputs.
ghost use Rattle.std.specs.Prelude.{IfSome, length, ◌≡◌, ◌≤◌};
ghost use Rattle.szs_report.specs.Region.{claim_of, region_of};

use crate::{Control, Probe};
use szs_report::{claim, region};
use tptp_base::Region;

/// Reads a prover's output.
pub trait Reporting {
    /// The part of a prover's output that holds the derivation.
    fn region(text: &[u8]) -> Region
        ensures value { result ≡ region_of text.now }
        ensures ordered { result.start ≤ result.end }
        ensures within { result.end ≤ length text.now };

    /// Where the word of the first status line stands.
    fn claim(text: &[u8]) -> Option<Region>
        ensures value { result ≡ claim_of text.now }
        ensures ordered { IfSome result (λ word. word.start ≤ word.end) }
        ensures within { IfSome result (λ word. word.end ≤ length text.now) };
}

impl Reporting for Probe {
    fn region(text: &[u8]) -> Region {
        region(text)
    }

    fn claim(text: &[u8]) -> Option<Region> {
        claim(text)
    }
}

impl Reporting for Control {
    fn region(text: &[u8]) -> Region {
        let part = region(text);
        Region {
            start: part.start,
            end: part.end,
        }
    }

    fn claim(text: &[u8]) -> Option<Region> {
        match claim(text) {
            Some(word) => Some(Region {
                start: word.start,
                end: word.end,
            }),
            None => None,
        }
    }
}
