// The domains of a signature's sorts.
ghost use Rattle.std.specs.Prelude.{◌≡◌, ◌<◌, ◌≤◌, ℕ, List, length, map, replicate, false, [], IfOk, IfErr, OnOk, IfSome, IfNone};
ghost use Rattle.fi_model.specs.code.Slots as spec_code;
ghost use Rattle.fi_model.specs.Faults.{IsDomainFault};
ghost use Rattle.fi_model.specs.Models as spec;

use crate::elements::Elements;
use crate::fault::ModelFault;
use crate::sentence::{Domain, Element, Sentence, What};
use fof_terms::{Signature, SortId};
use std::alloc::Global;
use tptp_base::{List, Memory, Text};
use tptp_lexer::Word;

/// The elements of each sort of the signature, as the sentences state them.
pub fn domains(
    alloc: Global,
    signature: &Signature,
    said: &[Sentence<'_>],
) -> Result<List<Elements>, ModelFault>
    ensures are { IfOk result (λ found. spec.AreDomains signature.now (spec.domains said.now) found) }
    ensures fault { IfErr result (λ fault. spec_code.IsOfDomains signature.now (spec.domains said.now) fault) }
{
    let mut slots = empty_slots(alloc, signature.sort_count())?;
    for sentence in said {
        take_sentence(alloc, signature, sentence, &mut slots)?;
    }
    match first_empty(slots.as_slice()) {
        Some(sort) => Err(no_domain(alloc, signature, sort)),
        None => Ok(slots),
    }
}

// As many sorts, without elements.
fn empty_slots(alloc: Global, count: u32) -> Result<List<Elements>, Memory>
    ensures { IfOk result (λ slots. slots ≡ replicate count []) }
{
    let mut slots = List::new(alloc);
    for _ in 0..count {
        slots.push(Elements::new(alloc))?;
    }
    Ok(slots)
}

// Takes what a sentence states, if it is a domain.
fn take_sentence(
    alloc: Global,
    signature: &Signature,
    sentence: &Sentence<'_>,
    slots: &mut List<Elements>,
) -> Result<(), ModelFault>
    requires { length slots.old ≡ length signature.now.sorts }
    ensures ok { OnOk result (spec_code.Takes signature.now slots.old sentence.now.what slots.new) }
    ensures err { IfErr result (λ fault. spec_code.Refuses signature.now slots.old sentence.now.what fault) }
{
    match &sentence.what {
        What::Domain(domain) => take_domain(alloc, signature, domain, slots),
        What::Entries(_) => Ok(()),
    }
}

// Takes the domain of a sort.
#[tactic(auto, using(crate::proofs::DomainLoops::refused_slot))]
fn take_domain(
    alloc: Global,
    signature: &Signature,
    domain: &Domain<'_>,
    slots: &mut List<Elements>,
) -> Result<(), ModelFault>
    requires { length slots.old ≡ length signature.now.sorts }
    ensures ok { OnOk result (spec_code.TakesDomain signature.now slots.old domain.now slots.new) }
    ensures err { IfErr result (λ fault. spec_code.RefusesDomain signature.now slots.old domain.now fault) }
{
    let found = sort_number(signature, &domain.sort);
    match open_slot(slots.as_slice(), found) {
        Some(sort) => match elements(alloc, domain.elements.as_slice())? {
            Some(elements) => {
                slots.set(sort, elements);
                Ok(())
            }
            None => Err(wrong_domain(alloc, &domain.sort)),
        },
        None => Err(wrong_domain(alloc, &domain.sort)),
    }
}

// The number of the sort of that name.
fn sort_number(signature: &Signature, sort: &Option<Word<'_>>) -> Option<SortId>
    ensures { result ≡ spec.sort_number signature.now sort.now }
{
    match sort {
        Some(word) => signature.find_sort(word.as_slice()),
        None => Some(0),
    }
}

// The sort, if it is there and has no elements.
fn open_slot(slots: &[Elements], sort: Option<SortId>) -> Option<usize>
    ensures slot { result ≡ spec_code.open_slot slots.now sort }
    ensures within { IfSome result (λ slot. slot < length slots.now) }
{
    let sort = sort? as usize;
    if sort < slots.len() && slots[sort].len() == 0 {
        Some(sort)
    } else {
        None
    }
}

// The elements of a domain, if there are some, and each once.
fn elements(alloc: Global, stated: &[Element<'_>]) -> Result<Option<Elements>, Memory>
    ensures { IfOk result (λ found. found ≡ spec_code.good_elements (map (λ e. e.name) stated.now)) }
{
    let mut elements = Elements::new(alloc);
    for element in stated {
        if !elements.add(alloc, element.name.as_slice())? {
            return Ok(None);
        }
    }
    if stated.is_empty() {
        Ok(None)
    } else {
        Ok(Some(elements))
    }
}

// The first sort without elements.
fn first_empty(slots: &[Elements]) -> Option<usize>
    ensures { result ≡ spec_code.first_empty slots.now }
{
    slots.iter().position(|elements| elements.len() == 0)
}

// The fault of the domain of a sort of that name.
fn wrong_domain(alloc: Global, sort: &Option<Word<'_>>) -> ModelFault
    ensures { spec_code.IsWrongDomain sort.now result }
{
    match sort_text(alloc, sort) {
        Ok(name) => ModelFault::Domain(name),
        Err(Memory) => ModelFault::Memory,
    }
}

// The name of a sort.
fn sort_text(alloc: Global, sort: &Option<Word<'_>>) -> Result<Text, Memory>
    ensures { IfOk result (λ name. name ≡ spec_code.sort_text sort.now) }
{
    match sort {
        Some(word) => Ok(Text::from_slice(alloc, word.as_slice())?),
        None => Ok(Text::from_slice(alloc, b"$i")?),
    }
}

// The fault of a sort without a domain.
fn no_domain(alloc: Global, signature: &Signature, sort: usize) -> ModelFault
    requires { sort < length signature.now.sorts }
    ensures { spec_code.IsNoDomain signature.now sort result }
{
    // A signature has few sorts, as the count tells.
    let _count = signature.sort_count();
    match signature.sort(sort as u32) {
        Some(name) => match Text::from_slice(alloc, name.as_slice()) {
            Ok(name) => ModelFault::Domain(name),
            Err(_) => ModelFault::Memory,
        },
        None => unreachable!(),
    }
}
