//! Laws of the definitions. Their bodies are empty: what they say is in their contracts.
ghost use Rattle.std.specs.Prelude.{◌≡◌, ◌⊎◌, ℕ, max, List, length, map};
ghost use Rattle.tptp_base.specs.declared.item.Item.{Item};
ghost use Rattle.tptp_base.specs.declared.name.Name.{Name as LineName};
ghost use Rattle.tptp_base.specs.Sizes.{IsWithin, list_of, size_of_items};
ghost use Rattle.fof_terms.specs.Sizes.{form_size};
ghost use Rattle.fof_terms.specs.Vocabulary.{Vocabulary};
ghost use Rattle.sort_check.specs.Bringing.{Brings};
ghost use Rattle.derivation_text.specs.declared.derivation.Derivation.{Derivation};
ghost use Rattle.derivation_text.specs.declared.fault.DerivationFault.{DerivationFault as Fault};
ghost use Rattle.derivation_text.specs.Derivations.{IsDerivation, IsDerivationFault};
ghost use Rattle.derivation_text.specs.Texts.{RegionSpells};
ghost use Rattle.derivation_text.specs.Wants.{IsWant};

/// What a derivation brings to a signature it names: the names of the further sorts and symbols are words of its text,
/// and so can be written between quotes. A further predicate has the result 0.
pub fn brought_by_the_derivation()
    ensures { (text : List ℕ) (given : List LineName) (v : Vocabulary) (d : Derivation) (w : Vocabulary) →
        IsDerivation text given v d w → Brings v w }
{}

/// A derivation is no larger than its text. There are at most as many items and formulas as it has bytes, and no list
/// in them has more members, but that a connective may make a list of two. All of them together have no more variables.
pub fn a_derivation_is_within_its_text()
    ensures items { (text : List ℕ) (items : List Item) → RegionSpells text items
        → IsWithin (length text) (size_of_items items) }
    ensures forms { (text : List ℕ) (given : List LineName) (v : Vocabulary) (d : Derivation) (w : Vocabulary) →
        IsDerivation text given v d w → IsWithin (max 2 (length text)) (list_of (map form_size d.forms)) }
{}

/// A text is one derivation from given formulas of these names, or has one first fault, and never both, where want of
/// memory is no fault of it.
pub fn one_derivation_or_fault()
    ensures one { (text : List ℕ) (given : List LineName) (v : Vocabulary) (d other : Derivation) (w more : Vocabulary)
        →
        IsDerivation text given v d w → IsDerivation text given v other more → (d ≡ other) × (w ≡ more) }
    ensures first { (text : List ℕ) (given : List LineName) (v : Vocabulary) (fault other : Fault) →
        IsDerivationFault text given v fault → IsDerivationFault text given v other
        → IsWant fault ⊎ (IsWant other ⊎ (fault ≡ other)) }
    ensures never_both { (text : List ℕ) (given : List LineName) (v : Vocabulary) (d : Derivation) (w : Vocabulary)
        (fault : Fault) →
        IsDerivation text given v d w → IsDerivationFault text given v fault → IsWant fault }
{}
