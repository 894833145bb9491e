//! Laws of the definitions. Their bodies are empty: what they say is in their contracts.
ghost use Rattle.std.specs.Prelude.{◌≡◌, List};
ghost use Rattle.tptp_base.specs.declared.item.Item.{Item};
ghost use Rattle.fof_terms.specs.Vocabulary.{Vocabulary, IsVocabulary};
ghost use Rattle.fi_model.specs.declared.fault.ModelFault.{ModelFault};
ghost use Rattle.fi_model.specs.declared.fault.ModelFault.TheVariants.{Memory};
ghost use Rattle.fi_model.specs.Faults.{IsModelFault};
ghost use Rattle.fi_model.specs.Interpretations.{Interpretation};
ghost use Rattle.fi_model.specs.Models.{ModelOf};

/// Items describe at most one interpretation of a signature, and none where they have a fault.
pub fn one_model_or_fault()
    ensures one { (items : List Item) (v : Vocabulary) (m other : Interpretation) →
        ModelOf items v m → ModelOf items v other → m ≡ other }
    ensures no_fault { (items : List Item) (v : Vocabulary) (m : Interpretation) (fault : ModelFault) →
        IsVocabulary v → ModelOf items v m → IsModelFault items v fault → fault ≡ Memory }
{}
