// The places of the entries that are partners.
ghost use Rattle.std.specs.Prelude.{◌≡◌, ◌++◌, ◌↔◌, ℕ, [], ◌∷◌, OnOk, Contains};
ghost use Rattle.std.specs.List.Sorted.{IsStrictlyIncreasing};
ghost use Rattle.clause_index.specs.code.Filing.{is_partner as partners, partner_places, numbered};

use crate::entry::Entry;
use crate::keys::{Keys, do_clash};
use tptp_base::{List, Memory};

/// Whether the entry has this sign, and keys that don't clash with these.
fn is_partner(entry: &Entry, positive: bool, keys: &Keys) -> bool
    ensures { result ≡ partners positive keys.now entry.now }
{
    let has_sign = if positive {
        entry.positive
    } else {
        !entry.positive
    };
    has_sign && !do_clash(&entry.keys, keys)
}

// Puts the place of the entry behind the others, if it is a partner.
fn push_place(
    entry: &Entry,
    positive: bool,
    keys: &Keys,
    places: &mut Vec<u32>,
) -> Result<(), Memory>
    ensures { OnOk result (places.new.items
        ≡ places.old.items ++ partner_places positive keys.now (entry.now ∷ [])) }
{
    if is_partner(entry, positive, keys) {
        places.push(entry.place)?;
    }
    Ok(())
}

/// Puts the places of the partners among these entries behind the others.
pub fn push_places(
    entries: &[Entry],
    positive: bool,
    keys: &Keys,
    places: &mut Vec<u32>,
) -> Result<(), Memory>
    ensures { OnOk result (places.new.items ≡ places.old.items ++ partner_places positive keys.now entries.now) }
{
    for entry in entries {
        push_place(entry, positive, keys, places)?;
    }
    Ok(())
}

/// Puts the places of the partners among the entries of these numbers behind the others.
pub fn push_numbered(
    entries: &List<Entry>,
    numbers: &[usize],
    positive: bool,
    keys: &Keys,
    places: &mut Vec<u32>,
) -> Result<(), Memory>
    ensures { OnOk result (places.new.items
        ≡ places.old.items ++ partner_places positive keys.now (numbered entries.now numbers.now)) }
{
    for number in numbers {
        match entries.get(*number) {
            Some(entry) => push_place(entry, positive, keys, places)?,
            None => {}
        }
    }
    Ok(())
}

/// The places in ascending order and once each.
pub fn once_each(places: Vec<u32>) -> List<u32>
    ensures ascending { IsStrictlyIncreasing result }
    ensures same { (place : ℕ) → Contains result place ↔ Contains places.items place }
{
    let mut sorted = places;
    sorted.sort_unstable();
    sorted.dedup();
    List::from_vec(sorted)
}
