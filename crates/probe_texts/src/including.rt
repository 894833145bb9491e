// Problems with their includes.
ghost use Rattle.include_resolve.specs.Resolved as spec;
ghost use Rattle.include_resolve.specs.declared.problem.TheConstants.{TOTAL_SIZE as total_size};
ghost use Rattle.std.specs.Option.{option_copied};
ghost use Rattle.std.specs.Prelude.{IfOk, IsErrOf, List, length, ℕ, ◌+◌, ◌-◌, ◌<◌, ◌≡◌, ◌≤◌};
ghost use Rattle.tptp_base.specs.Count.{Rose};

use crate::{Control, Probe};
use include_resolve::{IncludeFault, Problem, resolve};
use std::alloc::Global;
use tptp_base::Store;

/// Resolves includes.
pub trait Including {
    /// The items of the file of this name, in which each include is replaced by the items of the file that it
    /// names.
    fn resolve<S: Store>(
        alloc: Global,
        store: &mut S,
        name: &str,
        root: Option<&str>,
    ) -> Result<Problem, IncludeFault>
        // What the file gives, or the first fault.
        ensures answers { spec.Answers (S.files store.old) (option_copied root.entry) name.now result }
        // Whatever the store tells:
        ensures read { IfOk result (λ problem. problem.read ≤ total_size) }
        ensures few { IfOk result (λ problem. length problem.items ≤ problem.read) }
        ensures few_files { IfOk result (λ problem. length problem.files ≤ problem.read + 1) }
        // A missing file and a fault of the store have their cause in this call.
        ensures missing { (written : List ℕ) → IsErrOf result (IncludeFault.Missing written) →
            Rose (S.absents store.old) (S.absents store.new) }
        ensures store_fault { IsErrOf result IncludeFault.Store → Rose (S.faults store.old) (S.faults store.new) }

        ensures same_files { S.files store.new ≡ S.files store.old }
        ensures more_absents { S.absents store.old ≤ S.absents store.new }
        ensures more_faults { S.faults store.old ≤ S.faults store.new };
}

impl Including for Probe {
    fn resolve<S: Store>(
        alloc: Global,
        store: &mut S,
        name: &str,
        root: Option<&str>,
    ) -> Result<Problem, IncludeFault> {
        resolve(alloc, store, name, root)
    }
}

impl Including for Control {
    fn resolve<S: Store>(
        alloc: Global,
        store: &mut S,
        name: &str,
        root: Option<&str>,
    ) -> Result<Problem, IncludeFault> {
        match resolve(alloc, store, name, root) {
            Ok(problem) => Ok(Problem {
                files: problem.files,
                items: problem.items,
                read: problem.read,
            }),
            Err(fault) => Err(fault),
        }
    }
}
