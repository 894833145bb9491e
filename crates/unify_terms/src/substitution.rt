ghost use Rattle.std.specs.Prelude.{◌≡◌, map, IfOk};
ghost use Rattle.unify_terms.specs.Substitution.{instance};

use fof_terms::Term;
use std::alloc::Global;
use std::marker::Model;
use tptp_base::{List, Memory};

/// A substitution: the images of the variables, that of variable 0 first.
#[derive(Drop)]
pub struct Subst {
    pub images: List<Term>,
}

impl Model for Subst {
    ghost use Rattle.std.specs.Prelude.{List};
    ghost use Rattle.std.specs.Coded.{codes};
    ghost use Rattle.fof_terms.specs.declared.term.Term.{Term as Image};
    ghost use Rattle.fof_terms.specs.contracts.term.Term as term;

    ghost Value = { List Image };

    ghost coded = { Prim.hlevel (codes, term.the_row.coded) };

    ghost view = { λ s. s.images };
}

/// The instance of the term. A variable without an image stands for itself.
pub fn apply(alloc: Global, subst: &Subst, term: &Term) -> Result<Term, Memory>
    ensures { IfOk result (λ made. made ≡ instance subst.now term.now) }
{
    instance_of_term(term, alloc, subst.images.as_slice())
}

#[tactic(auto, using(crate::proofs::SubstitutionFacts::applied_equations))]
#[cycle(instance_of_term)]
fn instance_of_term(term: &Term, alloc: Global, images: &[Term]) -> Result<Term, Memory>
    ensures { IfOk result (λ made. made ≡ instance images.now term.now) }
{
    match term {
        Term::Var(variable) => match images.get(*variable as usize) {
            Some(image) => Ok(image.copy(alloc)?),
            None => Ok(Term::Var(*variable)),
        },
        Term::App(function, args) => {
            Ok(Term::App(
                *function,
                instances_of_terms(args.as_slice(), alloc, images)?,
            ))
        }
    }
}

#[tactic(auto, using(crate::proofs::SubstitutionFacts::applied_equations))]
#[cycle(instance_of_term)]
fn instances_of_terms(terms: &[Term], alloc: Global, images: &[Term]) -> Result<List<Term>, Memory>
    ensures { IfOk result (λ made. made ≡ map (instance images.now) terms.now) }
{
    let mut made = List::new(alloc);
    for term in terms {
        made.push(instance_of_term(term, alloc, images)?)?;
    }
    Ok(made)
}
