//! Laws of names in vocabularies, shown by functions that do nothing.
ghost use Rattle.std.specs.Prelude.{◌≡◌, ◌≤◌, ◌+◌, ◌++◌, ◌^◌, ℕ, List, [], Ok, false, length};
ghost use Rattle.fof_terms.specs.Vocabulary.{Vocabulary};
ghost use Rattle.tptp_base.specs.declared.item.Item.{Item};
ghost use Rattle.sort_check.specs.Symbols.{Text};
ghost use Rattle.sort_check.specs.Texts.{denoted};
ghost use Rattle.sort_check.specs.declared.line.Line.{Line};
ghost use Rattle.sort_check.specs.declared.line.GivenEntry.{GivenEntry};
ghost use Rattle.sort_check.specs.declared.line.TextKind.{TextKind};
ghost use Rattle.prove_out.specs.Unambiguous.{IsUnambiguous};
ghost use Rattle.printed_clauses.specs.Prefixes.{is_taken};
ghost use Rattle.step_clauses.specs.declared.existentials.Existential.{Existential};
ghost use Rattle.given_parts.specs.Functions.{functions_from};
ghost use Rattle.refutation_lines.specs.declared.derivation.Derivation.{Derivation};
ghost use Rattle.problem_proofs.specs.Found.{IsFound, vocabulary_of};

/// A vocabulary whose names say what they mean stays so with what a text denotes. One without symbols, and with no sort
/// but the first, is such a vocabulary.
pub fn what_is_denoted_is_unambiguous()
    ensures stays { (items : List Item) (v w : Vocabulary) (kind : TextKind) (lines : List Line) → IsUnambiguous v
        → denoted items v kind ≡ Ok (lines, w) → IsUnambiguous w }
    ensures begins { (v : Vocabulary) → length v.sorts ≤ 1 → v.symbols ≡ [] → IsUnambiguous v }
{}

/// It stays so with functions that are numbered behind a prefix with which no name begins.
pub fn new_functions_are_unambiguous()
    ensures { (v : Vocabulary) (prefix : Text) (first : ℕ) (existentials : List Existential) → IsUnambiguous v
        → is_taken v prefix ≡ false → first + length existentials ≤ 2 ^ 64
        → IsUnambiguous (record v { symbols = v.symbols ++ functions_from prefix first existentials }) }
{}

/// So the vocabulary of a derivation that is found is one, where that of the problem is.
pub fn a_derivation_is_unambiguous()
    ensures { (v : Vocabulary) (given : List GivenEntry) (limit : ℕ) (d : Derivation) → IsUnambiguous v
        → IsFound v given limit d → length (vocabulary_of v d).symbols ≤ 16777216
        → IsUnambiguous (vocabulary_of v d) }
{}
