// The declarations by which a signature grows.
ghost use Rattle.std.specs.Prelude.{◌≡◌, ◌++◌, ◌≤◌, length, map, drop, IfOk, IfErr, OnOk, OnErr};
ghost use Rattle.tptp_base.specs.Count.{Rose};
ghost use Rattle.tptp_base.specs.Sink.{Takes};
ghost use Rattle.kernel.specs.Entries.{Admits};
ghost use Rattle.kernel.specs.declared.entry.Entry.TheVariants.{Declare};
ghost use Rattle.kernel.specs.declared.entry.Decl.TheVariants as decl;
ghost use Rattle.proof_log.specs.Entries.{HaveNumbersInRange};
ghost use Rattle.verifier.specs.Declarations;
ghost use Rattle.verifier.specs.Faults.{HasCause};
ghost use Rattle.verifier.specs.Logged.{CanAdmit, LeadTo, LogsSome, entries_text};

use crate::entries::add_entries;
use crate::fault::RunFault;
use fof_terms::Signature;
use kernel::{Decl, Entry};
use proof_check::Theory;
use std::alloc::Global;
use tptp_base::{List, Memory, Sink, Text};

/// Declares what the signature has and the theory lacks, its new sorts and then its new symbols, and logs the
/// declarations.
///
/// # Errors
///
/// `Sink` where the log failed, and `Memory`. The log has then taken a prefix of the lines of legal entries, and the
/// theory has taken some of the declarations (`leads`).
#[tactic(auto, using(crate::proofs::Leading::led_none))]
pub fn declare<K: Sink>(
    alloc: Global,
    signature: &Signature,
    theory: &mut Theory,
    log: &mut K,
) -> Result<(), RunFault>
    requires { CanAdmit theory.old (Declarations.declarations theory.old.vocabulary signature.now) }
    ensures admits { OnOk result
        (Admits theory.old (Declarations.declarations theory.old.vocabulary signature.now) theory.new) }
    ensures logged { OnOk result
        (Takes (K.taken log.old) (K.taken log.new)
        (entries_text (Declarations.declarations theory.old.vocabulary signature.now))) }
    ensures in_range { OnOk result
        (HaveNumbersInRange (Declarations.declarations theory.old.vocabulary signature.now)) }
    ensures leads { LeadTo theory.old theory.new }
    ensures cut { OnErr result (LogsSome theory.old (K.taken log.old) (K.taken log.new)) }
    ensures cause { IfErr result (λ fault. HasCause fault (Rose (K.faults log.old) (K.faults log.new))) }
    ensures more_faults { K.faults log.old ≤ K.faults log.new }
{
    let entries = declarations(alloc, theory.signature(), signature)?;
    add_entries(alloc, entries.as_slice(), theory, log)
}

// The declarations of the sorts and then the symbols that the new signature has and the old one lacks.
fn declarations(alloc: Global, old: &Signature, new: &Signature) -> Result<List<Entry>, Memory>
    ensures { IfOk result (λ entries. entries ≡ Declarations.declarations old.now new.now) }
{
    let mut entries = List::new(alloc);
    declare_sorts(alloc, old, new, &mut entries)?;
    declare_symbols(alloc, old, new, &mut entries)?;
    Ok(entries)
}

// Appends the declarations of the new sorts.
fn declare_sorts(
    alloc: Global,
    old: &Signature,
    new: &Signature,
    entries: &mut List<Entry>,
) -> Result<(), Memory>
    ensures { OnOk result (entries.new ≡ entries.old
        ++ map (λ name. Declare (decl.Sort name)) (drop (length old.now.sorts) new.now.sorts)) }
{
    for number in old.sort_count()..new.sort_count() {
        let Some(name) = new.sort(number) else {
            unreachable!()
        };
        let name = Text::from_slice(alloc, name.as_slice())?;
        entries.push(Entry::Declare(Decl::Sort(name)))?;
    }
    Ok(())
}

// Appends the declarations of the new symbols.
fn declare_symbols(
    alloc: Global,
    old: &Signature,
    new: &Signature,
    entries: &mut List<Entry>,
) -> Result<(), Memory>
    ensures { OnOk result (entries.new ≡ entries.old
        ++ map (λ symbol. Declare (decl.Symbol symbol)) (drop (length old.now.symbols) new.now.symbols)) }
{
    for number in old.symbol_count()..new.symbol_count() {
        let Some(symbol) = new.symbol(number) else {
            unreachable!()
        };
        let symbol = symbol.copy(alloc)?;
        entries.push(Entry::Declare(Decl::Symbol(symbol)))?;
    }
    Ok(())
}
