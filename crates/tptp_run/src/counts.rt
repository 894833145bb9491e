//! What `parse` prints of a problem without faults, shown by a function that does nothing. A run on words ends so by
//! the clause `outcome` of `run_tptp`.
ghost use Rattle.std.specs.Prelude.{◌≡◌, ℕ, List, Some, Ok};
ghost use Rattle.tptp_base.specs.Store.{Files as StoreFiles};
ghost use Rattle.fof_terms.specs.Vocabulary.{Vocabulary};
ghost use Rattle.include_resolve.specs.declared.problem.Problem.{Problem as Whole};
ghost use Rattle.include_resolve.specs.Resolved.{Resolves};
ghost use Rattle.sort_check.specs.declared.line.Line.{Line as LineOf};
ghost use Rattle.sort_check.specs.declared.line.TextKind.TheVariants as kind;
ghost use Rattle.sort_check.specs.Texts.{denoted};
ghost use Rattle.read_problems.specs.Denoted.{first_vocabulary};
ghost use Rattle.read_problems.specs.Ending.{Ending};
ghost use Rattle.tptp_run.specs.Ends.{Ends};
ghost use Rattle.tptp_commands.specs.Parsed.{counted, formula_count};
ghost use Rattle.tptp_commands.specs.Words.{Parse, Request, IsForm};

/// `parse` of a problem that resolves, and whose formulas denote, says how many formulas it has with all that it
/// includes.
pub fn a_parse_counts_formulas()
    ensures { (files : StoreFiles) (words : List (List ℕ)) (request : Request) (file : List ℕ) (problem : Whole)
        (lines : List LineOf) (v : Vocabulary) (ending : Ending)
        → Ends files words ending → IsForm words request → request.task ≡ Parse file
        → Resolves (Some files) request.root file (Ok problem)
        → denoted problem.items first_vocabulary kind.Problem ≡ Ok (lines, v)
        → ending ≡ counted (formula_count problem.items) }
{}
