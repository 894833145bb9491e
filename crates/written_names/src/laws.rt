//! Laws of what a problem gives, shown by functions that do nothing.
ghost use Rattle.std.specs.Prelude.{◌≡◌, ℕ, List, Ok, Option};
ghost use Rattle.fof_terms.specs.Vocabulary.{Vocabulary};
ghost use Rattle.include_resolve.specs.Resolved.{Resolves};
ghost use Rattle.include_resolve.specs.declared.problem.Problem.{Problem as Whole};
ghost use Rattle.printed_forms.specs.Written.{AreGivenListed};
ghost use Rattle.sort_check.specs.Given.{given_entries};
ghost use Rattle.sort_check.specs.Texts.{denoted};
ghost use Rattle.sort_check.specs.declared.line.Line.{Line as Denoted};
ghost use Rattle.sort_check.specs.declared.line.TextKind.TheVariants as kind;
ghost use Rattle.tptp_base.specs.Store.{Files};
ghost use Rattle.printed_forms.specs.Words.{AreNamed, HasWords};

/// What a problem denotes, with all that it includes, over a vocabulary whose names have spellings between single quotes
/// leaves one whose names have them.
pub fn a_problem_has_words()
    ensures { (told : Option Files) (root : Option (List ℕ)) (file : List ℕ) (whole : Whole) (lines : List Denoted)
        (v w : Vocabulary)
        → Resolves told root file (Ok whole) → HasWords v → denoted whole.items v kind.Problem ≡ Ok (lines, w)
        → HasWords w }
{}

/// No formula that a problem gives, with all that it includes, has a conjunction or a disjunction of one member.
pub fn a_problem_gives_no_list_of_one()
    ensures { (told : Option Files) (root : Option (List ℕ)) (file : List ℕ) (whole : Whole) (lines : List Denoted)
        (v w : Vocabulary)
        → Resolves told root file (Ok whole) → denoted whole.items v kind.Problem ≡ Ok (lines, w)
        → AreGivenListed (given_entries lines) }
{}

/// Each formula that a problem gives, with all that it includes, has a name that a text can write.
pub fn a_problem_gives_names()
    ensures { (told : Option Files) (root : Option (List ℕ)) (file : List ℕ) (whole : Whole) (lines : List Denoted)
        (v w : Vocabulary)
        → Resolves told root file (Ok whole) → denoted whole.items v kind.Problem ≡ Ok (lines, w)
        → AreNamed (given_entries lines) }
{}
