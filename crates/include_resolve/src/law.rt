//! Laws of the definitions. Their bodies are empty: what they say is in their contracts.
ghost use Rattle.std.specs.Prelude.{◌≡◌, ℕ, List, ◌∷◌, All, Option, Some, Ok, length};
ghost use Rattle.tptp_base.specs.Sizes.{IsWithin, size_of_items};
ghost use Rattle.tptp_base.specs.Store.{Files};
ghost use Rattle.include_resolve.specs.declared.problem.Problem.{Problem};
ghost use Rattle.include_resolve.specs.Laws.{HasAnswer, IsOfSomeText, IsResolvedItem};
ghost use Rattle.include_resolve.specs.Parts.{Answer};
ghost use Rattle.include_resolve.specs.Resolved.{Resolves};
ghost use Rattle.include_resolve.specs.Tried.{HasAllTried, Tries};

/// A file gives a problem with all that it includes, or there is a first fault on the walk through the files, and never
/// two of them.
pub fn one_answer()
    ensures some { (files : Files) (root : Option (List ℕ)) (name : List ℕ) → HasAnswer files root name }
    ensures one { (files : Files) (root : Option (List ℕ)) (name : List ℕ) (answer other : Answer) →
        Resolves (Some files) root name answer → Resolves (Some files) root name other → answer ≡ other }
{}

/// The items of a resolved problem are comments and formulas, whose places are in its files. Over every store.
pub fn all_includes_are_replaced()
    ensures { (told : Option Files) (root : Option (List ℕ)) (name : List ℕ) (problem : Problem) →
        Resolves told root name (Ok problem) → All (IsResolvedItem (length problem.files)) problem.items }
{}

/// Each item of a resolved problem is one that some text spells. Over every store.
pub fn resolved_items_are_spelled()
    ensures { (told : Option Files) (root : Option (List ℕ)) (name : List ℕ) (problem : Problem) →
        Resolves told root name (Ok problem) → All IsOfSomeText problem.items }
{}

/// A resolved problem is no larger than what was read. It has at most as many items as bytes were read, no list in them
/// has more members, and all of them together have no more variables. Over every store.
pub fn a_problem_is_within_what_was_read()
    ensures { (told : Option Files) (root : Option (List ℕ)) (name : List ℕ) (problem : Problem) →
        Resolves told root name (Ok problem) → IsWithin problem.read (size_of_items problem.items) }
{}

/// The walk looks at no other files than those whose names it tries: a store that has the same files under these names
/// gives the same answer. So a further file under another name changes nothing.
pub fn only_tried_files_count()
    ensures same { (files after : Files) (root : Option (List ℕ)) (name : List ℕ) (answer : Answer) →
        HasAllTried files after root name → Resolves (Some files) root name answer
        → Resolves (Some after) root name answer }
    ensures further { (files : Files) (root : Option (List ℕ)) (name other bytes : List ℕ) (answer : Answer) →
        (Tries files root name other → ⊥) → Resolves (Some files) root name answer
        → Resolves (Some ((other, bytes) ∷ files)) root name answer }
{}
