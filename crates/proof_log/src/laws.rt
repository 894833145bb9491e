//! Laws of the text of logs, shown by functions that do nothing.
ghost use Rattle.std.specs.Prelude.{◌≡◌, ℕ, ◌++◌, List};
ghost use Rattle.kernel.specs.Entries.{Admits};
ghost use Rattle.kernel.specs.Statements.{Statements};
ghost use Rattle.kernel.specs.declared.entry.Entry.{Entry};
ghost use Rattle.proof_log.specs.Entries.{AreLogged, log_text};

/// One text is the text of one list of entries.
pub fn one_text_is_of_one_log()
    ensures { (first second : List Entry) → AreLogged first → AreLogged second → log_text first ≡ log_text second
        → first ≡ second }
{}

/// Where one log is the beginning of another, its entries are the first of the other.
pub fn a_log_begins_a_log()
    ensures { (first second : List Entry) (more : List ℕ) → AreLogged first → AreLogged second
        → log_text first ++ more ≡ log_text second →
        (others : List Entry) × (second ≡ first ++ others) }
{}

/// Entries that are legal in turn make one theory of another.
pub fn entries_make_one_theory()
    ensures { (start : Statements) (entries : List Entry) (first second : Statements) → Admits start entries first
        → Admits start entries second → first ≡ second }
{}
