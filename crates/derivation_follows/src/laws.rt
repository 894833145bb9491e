//! Laws of derivations whose lines are given by rules, shown by functions that do nothing.
ghost use Rattle.std.specs.Prelude.{◌≡◌, ◌<◌, ◌^◌, ℕ, List, [], Some, length, true, false};
ghost use Rattle.std.specs.List.{All as Each};
ghost use Rattle.clause_rules.specs.Steps.{IsReady};
ghost use Rattle.sort_check.specs.declared.line.GivenEntry.{GivenEntry as Entry};
ghost use Rattle.problem_proofs.specs.Found.{IsFound};
ghost use Rattle.refutation_lines.specs.declared.derivation.Derivation.{Derivation as Found};
ghost use Rattle.tstp_graph.specs.declared.shape.Graph.{Graph};
ghost use Rattle.derivation_order.specs.Cited.{derivation_by, forms_in};
ghost use Rattle.derivation_check.specs.Cases.{Asked, claimed};
ghost use Rattle.derivation_check.specs.GoodCases.{IsGoodCase};
ghost use Rattle.derivation_text.specs.declared.derivation.Derivation.{Derivation as Checked};
ghost use Rattle.limited_items.specs.Room as limited;
ghost use Rattle.limited_items.specs.Sources.{forms_given};
ghost use Rattle.derivation_check.specs.Claim.{IsJustified, default_word};
ghost use Rattle.derivation_check.specs.declared.claiming.Claim.{Claim};
ghost use Rattle.derivation_order.specs.Graphs.{AreNames, IsGraphOf};
ghost use Rattle.derivation_follows.specs.Cases.{IsReadAs};
ghost use Rattle.derivation_items.specs.Words.{Text};
ghost use Rattle.limited_items.specs.Limits.{AreWithin};
ghost use Rattle.tptp_base.specs.declared.item.Item.{Item};
ghost use Rattle.derivation_follows.specs.Stepping.{StepsApply, StepsOfKindApply};
ghost use Rattle.derivation_follows.specs.Members.{AreFit};
ghost use Rattle.derivation_items.specs.declared.line.ProofLine.{ProofLine};
ghost use Rattle.limited_items.specs.Premises.{HaveSmallPremises};
ghost use Rattle.problem_proofs.specs.Found.{refutation_by, vocabulary_of};
ghost use Rattle.problem_proofs.specs.Posed.{with_functions};
ghost use Rattle.fof_terms.specs.declared.form.Form.{Form as Formula};
ghost use Rattle.fof_terms.specs.Vocabulary.{Vocabulary};
ghost use Rattle.kernel.specs.Statements.{Statements};
ghost use Rattle.clause_form.specs.declared.path.Parent.{Parent as Premise};
ghost use Rattle.elaborate.specs.ByRule.{ByRule, LeafRule, leaf_rules, rules};
ghost use Rattle.elaborate.specs.declared.answer.Rule.{Rule};
ghost use Rattle.tstp_graph.specs.declared.shape.Ref.{Ref};
ghost use Rattle.verifier.specs.Good.{IsGood};
ghost use Rattle.verifier.specs.Lines.{Derivation as Lined};
ghost use Rattle.verifier.specs.Report.{HasFalse};
ghost use Rattle.derivation_follows.specs.Applied.{AreGivenInTurn, OneApplies, OneGivesAlone};
ghost use Rattle.derivation_follows.specs.Sure.{IsSure};

/// Where some rule gives a line, that one is the first that does cannot be refuted.
pub fn some_rule_is_first()
    ensures { (t : Statements) (parents : List Premise) (line : Formula) → OneApplies rules t parents line
        → IsSure ((rule : Rule) × ByRule t parents line rule) }
{}

/// Where some rule of leaves gives a line from some candidate alone, that one is the first that does, from a first
/// candidate, cannot be refuted.
pub fn some_leaf_rule_is_first()
    ensures { (t : Statements) (candidates : List Premise) (line : Formula)
        → OneGivesAlone leaf_rules t candidates line
        → IsSure ((rule : Rule) × (i : ℕ) × LeafRule t candidates line rule i) }
{}

/// Where some rule gives each line, behind those before it in the order, and some line is falsehood, it cannot be
/// refuted that the derivation is good in this order and its lines cite some formulas.
pub fn given_lines_are_good()
    ensures { (v : Vocabulary) (d : Lined) (order : List ℕ) → AreGivenInTurn v d [] order → HasFalse d.forms
        → IsSure ((cites : List Ref) × IsGood v d order cites) }
{}

/// Of a derivation that is found each line that copies a given formula follows from it by `norm`, and the last line is
/// falsehood. So where some rule gives each of the others from the formulas that its source names, behind the lines
/// before it, it cannot be refuted that the derivation is good in the order of its graph and its lines cite some
/// formulas.
pub fn a_found_derivation_is_good()
    ensures { (v : Vocabulary) (given : List Entry) (limit : ℕ) (d : Found) → length given < 2 ^ 64 → limit < 2 ^ 32
        → IsFound v given limit d → (types : ℕ) (graph : Graph) → IsGraphOf given types d.lines graph
        → (w : Vocabulary) → StepsApply w given d.lines → (searched : ℕ)
        → IsSure ((cites : List Ref) × IsGood w (derivation_by given d.lines graph searched) graph.order cites) }
{}

/// Some rule gives each line of a derivation that is found and is inferred from other clauses, behind the lines before
/// it, where the clauses of needed members are fit and each line that is inferred from one alone comes from a formula
/// that has a normal form.
pub fn inferred_lines_apply()
    ensures { (v : Vocabulary) (given : List Entry) (limit : ℕ) (d : Found) → length given < 2 ^ 64 → limit < 2 ^ 32
        → (f : IsFound v given limit d) → HaveSmallPremises d.lines → (w : Vocabulary)
        → AreFit (with_functions v given) w (refutation_by v given f.members f.last) f.derivation.needed
        → StepsOfKindApply true w given d.lines }
{}

/// Where some rule gives each step that is inferred from other clauses, and each that is not, some rule gives each
/// step.
pub fn steps_of_both_kinds_apply()
    ensures { (w : Vocabulary) (given : List Entry) (lines : List ProofLine) → StepsOfKindApply true w given lines
        → StepsOfKindApply false w given lines → StepsApply w given lines }
{}

/// The word of a proof, by whether the problem has a conjecture, is justified.
pub fn the_word_of_a_proof_is_justified()
    ensures { (claim : Claim) → claim.word ≡ Some (default_word claim.has_conjecture) → IsJustified claim }
{}

/// Where some rule gives each step of a derivation that is found, there is room for each line, and the text claims the
/// word of a proof, it cannot be refuted that the case is good. The case has the graph of the lines, and its forms are
/// theirs.
pub fn a_found_derivation_makes_a_good_case()
    ensures { (v : Vocabulary) (given : List Entry) (limit : ℕ) (d : Found) → length given < 2 ^ 64 → limit < 2 ^ 32
        → IsFound v given limit d → (types : ℕ) (graph : Graph) → IsGraphOf given types d.lines graph
        → (w : Vocabulary) → StepsApply w given d.lines → limited.HaveRoom (length w.symbols) given d.lines
        → (asked : Asked) (t : Statements) (checked : Checked) → t.formulas ≡ forms_given given
        → checked.graph ≡ graph → checked.forms ≡ forms_in d.lines
        → claimed asked.output ≡ Some (default_word asked.has_conjecture) → IsSure (IsGoodCase asked t checked w) }
{}

/// The clauses of needed members are fit over the vocabulary of the derivation, where the given formulas are closed and
/// well-sorted.
pub fn needed_members_are_fit()
    ensures { (v : Vocabulary) (given : List Entry) (limit : ℕ) (d : Found) → Each (λ g. IsReady v g.form) given
        → (f : IsFound v given limit d)
        → AreFit (with_functions v given) (vocabulary_of v d) (refutation_by v given f.members f.last)
        f.derivation.needed }
{}

/// So it is with the items of a derivation that is found, within the limits: where the printed text is read as these
/// items, but for their places, with the formulas of the lines, and some rule gives each step over the vocabulary of
/// the derivation, it cannot be refuted that the case is good.
pub fn a_printed_derivation_makes_a_good_case()
    ensures { (v : Vocabulary) (given : List Entry) (limit : ℕ) (d : Found) → length given < 2 ^ 64 → limit < 2 ^ 32
        → AreNames given → IsFound v given limit d → (file : Text) (items : List Item)
        → AreWithin file (vocabulary_of v d) (length v.symbols) given d.lines items
        → StepsApply (vocabulary_of v d) given d.lines → (asked : Asked) (t : Statements) (checked : Checked)
        → t.formulas ≡ forms_given given → IsReadAs given d.lines items checked
        → claimed asked.output ≡ Some (default_word asked.has_conjecture)
        → IsSure (IsGoodCase asked t checked (vocabulary_of v d)) }
{}
