// Both ways from a formula to its normal form are right. Here it is reckoned which of them gives the shorter proofs.
use fof_terms::Form;

// About how many formulas stand in the proofs of the steps that name them all: the literals of the formula, those that
// the members' proofs of disjunctions name, and those that disjunctions directly inside others name when they are
// joined.
#[derive(Clone, Copy)]
struct Effort {
    literals: u64,
    arms: u64,
    joins: u64,
}

impl Effort {
    // That of two parts.
    fn and(self, other: Effort) -> Effort {
        Effort {
            literals: self.literals.saturating_add(other.literals),
            arms: self.arms.saturating_add(other.arms),
            joins: self.joins.saturating_add(other.joins),
        }
    }

    // That of a disjunction of so many parts, which may stand directly inside another one, or else of a conjunction.
    fn joined(self, disjunction: bool, members: u64, inside: bool) -> Effort {
        if !disjunction {
            return self;
        }
        let arms = self.literals.saturating_mul(members);
        let joins = self.literals.saturating_mul(self.literals);
        Effort {
            literals: self.literals,
            arms: self.arms.saturating_add(arms),
            joins: self.joins.saturating_add(if inside { joins } else { 0 }),
        }
    }
}

// Whether the proofs between the formula and its normal form are shorter by the normal form of its negation.
pub(crate) fn is_shorter_denied(form: &Form) -> bool {
    let denied = effort_of(form, false, false);
    let few = denied.arms.saturating_add(denied.joins).saturating_add(500);
    effort_of(form, true, false).joins > few
}

// That of the formula, or under minus of its negation.
#[cycle(effort_of)]
fn effort_of(form: &Form, positive: bool, inside: bool) -> Effort {
    match form {
        Form::Atom(_, _) | Form::Eq(_, _) => Effort {
            literals: 1,
            arms: 0,
            joins: 0,
        },
        Form::Not(body) => effort_of(body.get(), !positive, inside),
        Form::And(members) => of_members(members.as_slice(), positive, !positive, inside),
        Form::Or(members) => of_members(members.as_slice(), positive, positive, inside),
        Form::Imp(left, right) => {
            let first = effort_of(left.get(), !positive, positive);
            let second = effort_of(right.get(), positive, positive);
            first.and(second).joined(positive, 2, inside)
        }
        Form::Iff(left, right) => {
            let first = effort_of(left.get(), !positive, positive);
            let second = effort_of(right.get(), positive, positive);
            let one = first.and(second).joined(positive, 2, false);
            let third = effort_of(left.get(), positive, positive);
            let fourth = effort_of(right.get(), !positive, positive);
            let other = third.and(fourth).joined(positive, 2, false);
            one.and(other).joined(!positive, 2, inside)
        }
        Form::All(_, body) | Form::Ex(_, body) => effort_of(body.get(), positive, false),
    }
}

// That of a disjunction of the formulas, or of their negations, or else of a conjunction.
#[cycle(effort_of)]
fn of_members(forms: &[Form], positive: bool, disjunction: bool, inside: bool) -> Effort {
    let mut all = Effort {
        literals: 0,
        arms: 0,
        joins: 0,
    };
    for form in forms {
        all = all.and(effort_of(form, positive, disjunction));
    }
    all.joined(disjunction, forms.len() as u64, inside)
}
