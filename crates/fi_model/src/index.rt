// Rows by symbol and elements.
ghost use Rattle.std.specs.Prelude.{◌≡◌, ◌++◌, ◌∷◌, [], map, not, nat_eq, None, IfOk, IfErr, OnOk};
ghost use Rattle.std.specs.Bool.{OnTrue};
ghost use Rattle.std.specs.Cmp.Lexicographic.{pointwise};
ghost use Rattle.std.specs.List.{list_any};
ghost use Rattle.fi_model.specs.code.Adding as spec_code;
ghost use Rattle.fi_model.specs.code.Adding.{under, told};
ghost use Rattle.fi_model.specs.Faults.{first_double};

use crate::fault::ModelFault;
use crate::rows::Row;
use crate::sentence::Sentence;
use indexmap::IndexMap;
use std::alloc::{AllocError, Global};
use std::marker::Model;
use tptp_base::Memory;

/// The value of each row under the number of its symbol and its elements. Looking one up takes time that does not grow
/// with their number.
#[derive(Drop)]
pub struct Index {
    values: IndexMap<Vec<usize>, usize>,
}

impl Model for Index {
    ghost use Rattle.std.specs.Prelude.{ℕ, List, map};

    ghost Value = { List (List ℕ × ℕ) };

    ghost view = { λ index. map (λ e. (e.0.items, e.1)) index.values.entries };
}

impl Index {
    // The index without rows. It has room for so many.
    fn with_room(alloc: Global, count: usize) -> Result<Index, AllocError>
        ensures { IfOk result (λ index. index ≡ []) }
    {
        Ok(Index {
            values: IndexMap::with_capacity(alloc, count)?,
        })
    }

    /// The value under the number of a symbol and elements.
    pub fn find(&self, key: &[usize]) -> Option<usize>
        ensures { result ≡ told self.now key.now }
    {
        self.values.get(key).copied()
    }

    // Adds a value, and answers whether there was none under its key.
    fn add(&mut self, key: Vec<usize>, value: usize) -> Result<bool, Memory>
        ensures told { IfOk result (λ added. added ≡ not (list_any (under key.items) self.old)) }
        ensures added { IfOk result (λ added. OnTrue added (self.new ≡ self.old ++ (key.items, value) ∷ [])) }
    {
        let earlier = self.values.insert(key, value)?;
        Ok(earlier.is_none())
    }
}

// The number of the row's symbol and its elements.
fn key_of(alloc: Global, row: &Row) -> Result<Vec<usize>, Memory>
    ensures { IfOk result (λ key. key.items ≡ spec_code.key_of row.now) }
{
    let mut key = Vec::new(alloc);
    key.push(row.symbol as usize)?;
    key.extend_from_slice(row.args.as_slice())?;
    Ok(key)
}

/// The index of rows, no two of which are of one symbol at the same elements.
pub fn index_rows(alloc: Global, rows: &[Row], said: &[Sentence<'_>]) -> Result<Index, ModelFault>
    requires { spec_code.AreOf rows.now said.now }
    ensures single { OnOk result (first_double [] rows.now ≡ None) }
    ensures entries { IfOk result (λ index. index ≡ map spec_code.entry_of rows.now) }
    ensures fault { IfErr result (λ fault. spec_code.IsDoubleAt said.now (first_double [] rows.now) fault) }
{
    let mut index = Index::with_room(alloc, rows.len())?;
    for row in rows {
        let key = key_of(alloc, row)?;
        let added = index.add(key, row.value)?;
        if !added {
            return Err(second_value(alloc, &said[row.at]));
        }
    }
    Ok(index)
}

// The fault of a sentence with a second value.
fn second_value(alloc: Global, sentence: &Sentence<'_>) -> ModelFault
    ensures { spec_code.IsDoubleOf sentence.now result }
{
    match sentence.name.copy(alloc) {
        Ok(name) => ModelFault::Double(sentence.place, name),
        Err(Memory) => ModelFault::Memory,
    }
}
