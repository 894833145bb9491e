// What a search asks for its partners.
ghost use Rattle.std.specs.Prelude.{◌≡◌, ◌++◌, [], ◌∷◌, List, Bool, true, false, IfOk, OnOk, OnErr};
ghost use Rattle.clause_index.specs.declared.entry.Entry.{Entry as Kept};
ghost use Rattle.clause_index.specs.Keys.{keys_of};
ghost use Rattle.clause_index.specs.Entries.{entry_of, ArePlaces};

use fof_terms::Term;
use std::alloc::Global;
use tptp_base::{List, Memory};

/// An index of terms: each is added for a place, with a sign. Asked for a term and a sign, it tells the places of the
/// entries that may have an instance in common with the term; it leaves out only what has none, since the keys clash.
/// An index is whole, or it is blind and answers nothing; no call changes which.
pub trait Partners {
    /// The entries, in the order in which they were added.
    ghost entries: { Self → List Kept };

    /// Whether it answers from all its entries. Where it doesn't it is blind.
    ghost is_whole: { Self → Bool };

    /// Adds a term. After a refusal the index is as it was.
    fn add(&mut self, place: u32, positive: bool, term: &Term) -> Result<(), Memory>
        ensures ok { OnOk result (is_whole self.old ≡ true
            → entries self.new ≡ entries self.old ++ entry_of place positive term.now ∷ []) }
        ensures err { OnErr result (entries self.new ≡ entries self.old) }
        ensures whole { is_whole self.new ≡ is_whole self.old };

    /// The places of the entries with this sign whose keys don't clash with the term's, in ascending order and once
    /// each. A blind index answers none.
    fn candidates(&self, alloc: Global, positive: bool, term: &Term) -> Result<List<u32>, Memory>
        ensures whole { IfOk result (λ places. is_whole self.now ≡ true
            → ArePlaces (entries self.now) positive (keys_of term.now) places) }
        ensures blind { IfOk result (λ places. is_whole self.now ≡ false → places ≡ []) };
}
