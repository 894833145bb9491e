//! Laws of the order of a derivation's lines, shown by functions that do nothing.
ghost use Rattle.std.specs.Prelude.{◌≡◌, ◌<◌, ◌^◌, ℕ, List, length};
ghost use Rattle.fof_terms.specs.Vocabulary.{Vocabulary};
ghost use Rattle.sort_check.specs.declared.line.GivenEntry.{GivenEntry as Entry};
ghost use Rattle.problem_proofs.specs.Found.{IsFound};
ghost use Rattle.refutation_lines.specs.declared.derivation.Derivation.{Derivation as Found};
ghost use Rattle.canon_print.specs.RoundTrip.{AreSame};
ghost use Rattle.tptp_base.specs.declared.item.Item.{Item};
ghost use Rattle.tptp_base.specs.declared.name.Name.{Name};
ghost use Rattle.tstp_graph.specs.declared.shape.Graph.{Graph};
ghost use Rattle.tstp_graph.specs.Graphs.{IsGraph};
ghost use Rattle.derivation_items.specs.Typings.{typings_of};
ghost use Rattle.derivation_items.specs.Words.{Text};
ghost use Rattle.derivation_items.specs.declared.line.ProofLine.{ProofLine};
ghost use Rattle.limited_items.specs.Limits.{AreWithin};
ghost use Rattle.derivation_order.specs.Graphs.{AreNames, IsGraphOf, names_of};
ghost use Rattle.derivation_order.specs.Links.{AreLinked, DifferByName, StandsAt};
ghost use Rattle.derivation_order.specs.Cited.{HasSources, derivation_by};
ghost use Rattle.limited_items.specs.Room as room;
ghost use Rattle.verifier.specs.Good.{HaveRoom};

/// Each line of a derivation that is found has a name that no line before it has, and is a copy of a given formula or
/// names lines before it.
pub fn lines_are_linked()
    ensures { (v : Vocabulary) (given : List Entry) (limit : ℕ) (d : Found) → length given < 2 ^ 64 → limit < 2 ^ 32
        → IsFound v given limit d → AreLinked given d.lines }
{}

/// The items of lines that are linked, within the limits, have a graph: its nodes are those of the lines, in their
/// order, and so they are checked. The names of the given formulas that are numbers are integers.
pub fn linked_lines_have_a_graph()
    ensures { (file : Text) (v : Vocabulary) (first : ℕ) (given : List Entry) (lines : List ProofLine)
        (items : List Item) → AreNames given → AreLinked given lines → AreWithin file v first given lines items
        → (graph : Graph) × IsGraph items (names_of given) graph
        × IsGraphOf given (length (typings_of v first)) lines graph }
{}

/// No two lines that are linked have one name.
pub fn linked_names_differ()
    ensures { (given : List Entry) (lines : List ProofLine) → AreLinked given lines → DifferByName lines }
{}

/// A line that is linked is to follow from the formulas that its source names: of a leaf the given formulas of the name
/// that it has, or all where that is `unknown`; of a step those of the lines before it that have the names.
pub fn linked_lines_have_their_sources()
    ensures { (given : List Entry) (lines : List ProofLine) (types : ℕ) (graph : Graph) (k : ℕ) (line : ProofLine)
        → AreLinked given lines → IsGraphOf given types lines graph → StandsAt lines k line
        → HasSources given lines graph k line }
{}

/// Where there is room for each line that is linked by the formulas that its source names, there is room for it by the
/// formulas that its node refers to.
pub fn linked_lines_have_room()
    ensures { (w : Vocabulary) (given : List Entry) (lines : List ProofLine) (types : ℕ) (graph : Graph) (limit : ℕ)
        → AreLinked given lines → IsGraphOf given types lines graph
        → room.HaveRoom (length w.symbols) given lines → HaveRoom w (derivation_by given lines graph limit) }
{}

/// Items that differ in their places alone have one graph.
pub fn items_alike_have_one_graph()
    ensures { (items others : List Item) (given : List Name) (graph : Graph) → AreSame items others
        → IsGraph items given graph → IsGraph others given graph }
{}
