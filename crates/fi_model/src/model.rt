// Models are read.
ghost use Rattle.std.specs.Prelude.{IfOk, IfErr};
ghost use Rattle.fi_model.specs.Faults.{IsModelFault};
ghost use Rattle.fi_model.specs.Models.{ModelOf};
ghost use Rattle.fi_model.specs.Tables.{interpretation};

use crate::domains::domains;
use crate::elements::Elements;
use crate::fault::ModelFault;
use crate::index::index_rows;
use crate::rows::rows;
use crate::sentences::sentences;
use crate::table::Table;
use crate::tables::tables;
use fof_terms::Signature;
use std::alloc::Global;
use tptp_base::{Item, List};

/// A finite model of a signature: the elements of each sort, and the table of each symbol.
#[derive(Drop)]
pub struct FiniteModel {
    pub domains: List<Elements>,
    pub tables: List<Table>,
}

/// The model of the signature that the items describe.
///
/// # Errors
///
/// The first fault, as `ModelFault` tells them.
#[tactic(auto, using(crate::proofs::Reading::model_is, crate::proofs::Reading::shape_is, crate::proofs::Reading::domain_is, crate::proofs::Reading::element_is, crate::proofs::Reading::double_is, crate::proofs::Reading::missing_is))]
pub fn read_model(
    alloc: Global,
    items: &[Item],
    signature: &Signature,
) -> Result<FiniteModel, ModelFault>
    ensures model { IfOk result (λ model. ModelOf items.now signature.now (interpretation model)) }
    ensures fault { IfErr result (λ fault. IsModelFault items.now signature.now fault) }
{
    let said = sentences(alloc, items)?;
    let domains = domains(alloc, signature, said.as_slice())?;
    let rows = rows(alloc, signature, domains.as_slice(), said.as_slice())?;
    let index = index_rows(alloc, rows.as_slice(), said.as_slice())?;
    let tables = tables(alloc, signature, domains.as_slice(), &index)?;
    Ok(FiniteModel { domains, tables })
}
