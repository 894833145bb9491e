//! Laws of keys, shown by functions that do nothing.
ghost use Rattle.std.specs.Prelude.{◌≡◌, ℕ, List, Bool, Contains, false};
ghost use Rattle.fof_terms.specs.declared.term.Term.{Term};
ghost use Rattle.fof_terms.specs.Lift.{lifted_term};
ghost use Rattle.clause_form.specs.Images.{image};
ghost use Rattle.clause_index.specs.Keys.{keys_of, do_clash};
ghost use Rattle.clause_index.specs.Entries.{entry_of, ArePlaces};
ghost use Rattle.clause_index.specs.declared.entry.Entry.{Entry as Kept};

/// Where an instance of one term equals an instance of another, their keys don't clash. Each substitution is any that
/// gives a term for each variable, and the two terms have variables of their own.
pub fn equal_instances_do_not_clash()
    ensures { (s r : ℕ → Term) (t u : Term) → image s t ≡ image r u → do_clash (keys_of t) (keys_of u) ≡ false }
{}

/// A term whose variables were moved has the same keys.
pub fn keys_of_terms_apart()
    ensures { (by from : ℕ) (t : Term) → keys_of (lifted_term by from t) ≡ keys_of t }
{}

/// What a whole index is asked for, it doesn't leave out: the place of a term that was added with this sign is among
/// the places that it tells, where an instance of the term equals an instance of the term asked for.
pub fn equal_instances_are_told()
    ensures { (entries : List Kept) (positive : Bool) (t u : Term) (places : List ℕ) (place : ℕ) (s r : ℕ → Term)
        → ArePlaces entries positive (keys_of t) places → Contains entries (entry_of place positive u)
        → image s u ≡ image r t → Contains places place }
{}
