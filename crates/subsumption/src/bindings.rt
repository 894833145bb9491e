ghost use Rattle.std.specs.Prelude.{◌≡◌, ◌<◌, ◌≤◌, [], length, replicate, None, IfOk, OnOk};
ghost use Rattle.fof_terms.specs.declared.term.Term.{Var as Variable};
ghost use Rattle.subsumption.specs.code.Bound.{images_of, trail_of, IsOver, IsUndone};
ghost use Rattle.subsumption.specs.code.Matched.{IsMatched, KeepsSort};

use fof_terms::{Term, equal_term};
use smallvec::SmallVec;
use std::alloc::Global;
use tptp_base::Memory;

/// What the variables of a member are bound to, and which of them are bound, in order. For few variables that takes no
/// memory.
#[derive(Drop)]
pub struct Bindings<'a> {
    images: SmallVec<Option<&'a Term>, 16>,
    trail: SmallVec<u32, 16>,
}

/// So many variables, none of which is bound.
pub fn no_bindings<'a>(alloc: Global, variables: usize) -> Result<Bindings<'a>, Memory>
    ensures images { IfOk result (λ b. images_of b ≡ replicate variables None) }
    ensures trail { IfOk result (λ b. trail_of b ≡ []) }
{
    let mut images = SmallVec::with_capacity(alloc, variables)?;
    for _ in 0..variables {
        images.push(None)?;
    }
    Ok(Bindings {
        images,
        trail: SmallVec::new(alloc),
    })
}

impl<'a> Bindings<'a> {
    /// How many variables are bound.
    pub fn count(&self) -> usize
        ensures { result ≡ length (trail_of self.now) }
    {
        self.trail.len()
    }

    /// Whether the variable is bound to this term, or becomes so now.
    pub fn bind(&mut self, variable: u32, term: &'a Term) -> Result<bool, Memory>
        requires { variable < length (images_of self.old) }
        ensures over { OnOk result (IsOver self.old self.new) }
        ensures matched { IfOk result (λ answer. IsMatched self.old self.new (λ s. s variable ≡ term.now) answer) }
        ensures sorted { OnOk result (KeepsSort self.old self.new (Variable variable) term.now) }
    {
        let at = variable as usize;
        match self.images[at] {
            Some(image) => Ok(equal_term(image, term)),
            None => {
                self.trail.push(variable)?;
                self.images[at] = Some(term);
                Ok(true)
            }
        }
    }

    /// Lets all variables go but the first so many that were bound.
    pub fn undo(&mut self, count: usize)
        requires { count ≤ length (trail_of self.old) }
        ensures { IsUndone self.old self.new count }
    {
        for _done in count..self.trail.len() {
            if let Some(variable) = self.trail.pop() {
                let at = variable as usize;
                if at < self.images.len() {
                    self.images[at] = None;
                }
            }
        }
    }
}
