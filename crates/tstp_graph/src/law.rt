//! Laws of the definitions. Their bodies are empty: what they say is in their contracts.
ghost use Rattle.std.specs.Prelude.{◌≡◌, ◌⊎◌, List};
ghost use Rattle.tptp_base.specs.declared.item.Item.{Item as Formulas};
ghost use Rattle.tptp_base.specs.declared.name.Name.{Name as GivenName};
ghost use Rattle.tstp_graph.specs.Graphs.{IsFault, IsGraph};
ghost use Rattle.tstp_graph.specs.declared.fault.GraphFault.{GraphFault as Fault};
ghost use Rattle.tstp_graph.specs.declared.fault.GraphFault.TheVariants.{Memory as wanting};
ghost use Rattle.tstp_graph.specs.declared.shape.Graph.{Graph as Shape};

/// Items have one graph or one first fault, and never both, where want of memory is no fault of theirs.
pub fn one_graph_or_fault()
    ensures one { (items : List Formulas) (given : List GivenName) (graph other : Shape) → IsGraph items given graph
        → IsGraph items given other → graph ≡ other }
    ensures first { (items : List Formulas) (given : List GivenName) (fault other : Fault)
        → IsFault items given fault → IsFault items given other
        → (fault ≡ wanting) ⊎ ((other ≡ wanting) ⊎ (fault ≡ other)) }
    ensures never_both { (items : List Formulas) (given : List GivenName) (graph : Shape) (fault : Fault)
        → IsGraph items given graph → IsFault items given fault → fault ≡ wanting }
{}
