//! The search.
ghost use Rattle.std.specs.Prelude.{◌≡◌, ◌<◌, map, MatchOption, length, IfOk, IsTrue};
ghost use Rattle.clause_learning.specs.Literals.{complement};
ghost use Rattle.clause_learning.specs.Refutations.{IsRefutation};
ghost use Rattle.clause_learning.specs.Valuations.{entry_of, Answers, HasAtoms};
ghost use Rattle.clause_learning.specs.code.Trails.{clauses_of, IsConflict};
ghost use Rattle.clause_learning.specs.code.Held.{IsStoppedAt};
ghost use Rattle.clause_learning.specs.code.States.{sign_of as sign_at, AllLoose, AllValued, AreLearned, IsBegun};
ghost use Rattle.clause_learning.specs.code.States.{IsNoted, IsOpen, IsState, IsTurned};

use crate::analysis::{Stop, begin, collect, walk};
use crate::clauses::{Clauses, Learned};
use crate::examining::{Finding, examine};
use crate::guide::Guide;
use crate::level::Level;
use crate::literal::Literal;
use crate::marks::Marks;
use crate::narrowing::narrow;
use crate::order::Order;
use crate::propagation::propagate;
use crate::restarts::Restarts;
use crate::retreating::{cut, retreat};
use crate::trail::{Trail, Value};
use crate::trimming::trim;
use sqlite_items::Items as List;
use std::alloc::{AllocError, Global};

/// A refutation of the clauses, or a sign for each atom that makes them true.
#[derive(Drop)]
pub enum Outcome {
    Refuted(List<Learned>),
    Valuation(List<bool>),
}

/// Whether the search goes on, or how it ends.
#[derive(Clone, Copy, Drop)]
pub enum Turn {
    Further,
    Refuted,
    Settled,
}

/// The clauses, what is held true, marks for an analysis, and when the next restart comes.
#[derive(Drop)]
pub struct Solver {
    pub clauses: Clauses,
    pub trail: Trail,
    pub marks: Marks,
    pub restarts: Restarts,
}

/// Decides clauses over that many atoms.
pub fn solve(
    alloc: Global,
    atoms: usize,
    inputs: List<List<Literal>>,
) -> Result<Outcome, AllocError>
    requires { HasAtoms atoms inputs }
    ensures { IfOk result (Answers atoms inputs) }
{
    let mut guide = Guide::new(alloc, atoms)?;
    let mut solver = Solver::new(alloc, atoms, inputs)?;
    'turns: loop {
        match solver.turn(alloc, &mut guide)? {
            Turn::Further => {}
            Turn::Refuted => return Ok(Outcome::Refuted(solver.refuted(alloc)?)),
            Turn::Settled => return Ok(Outcome::Valuation(solver.signs(alloc)?)),
        }
    }
}

impl Solver {
    // Before the first turn.
    fn new(alloc: Global, atoms: usize, inputs: List<List<Literal>>) -> Result<Solver, AllocError>
        requires { HasAtoms atoms inputs }
        ensures { IfOk result (IsBegun atoms inputs) }
    {
        Ok(Solver {
            clauses: Clauses::new(alloc, inputs),
            trail: Trail::new(alloc, atoms)?,
            marks: Marks::new(alloc, atoms)?,
            restarts: Restarts::new(),
        })
    }

    // What is needed of the log.
    fn refuted(self, alloc: Global) -> Result<List<Learned>, AllocError>
        requires { IsRefutation complement self.clauses.inputs (map entry_of self.clauses.log) }
        ensures { IfOk result (λ log. IsRefutation complement self.clauses.inputs (map entry_of log)) }
    {
        let Solver {
            clauses,
            trail: _,
            marks: _,
            restarts: _,
        } = self;
        trim(alloc, clauses)
    }

    // The signs of the atoms.
    fn signs(&self, alloc: Global) -> Result<List<bool>, AllocError>
        ensures { IfOk result (λ signs. signs ≡ map sign_at self.now.trail.values) }
    {
        let mut signs = List::new(alloc);
        let values = self.trail.values.as_slice();
        for value in values {
            signs.push(sign_of(*value))?;
        }
        Ok(signs)
    }

    // Concludes what clauses give, and learns where one is false. If none is, begins anew where it is time for that, or
    // takes an atom that has no value.
    fn turn(&mut self, alloc: Global, guide: &mut Guide) -> Result<Turn, AllocError>
        requires { IsState self.old }
        ensures { IfOk result (IsTurned self.old self.new) }
    {
        if let Some(number) = propagate(&self.clauses, &mut self.trail, &mut guide.watches)? {
            return self.learn(alloc, number, guide);
        }
        if self.restarts.is_due() {
            return self.restart(guide);
        }
        self.choose(alloc, guide)
    }

    // Takes every step back that was taken freely, and those behind.
    fn restart(&mut self, guide: &mut Guide) -> Result<Turn, AllocError>
        requires state { IsState self.old }
        requires left { 0 < self.old.restarts.left }
        ensures { IfOk result (IsTurned self.old self.new) }
    {
        self.restarts.restart();
        let Some(keep) = cut(&self.trail, &self.marks) else {
            return Ok(Turn::Further);
        };
        retreat(&mut self.trail, keep, &mut guide.order)?;
        guide.watches.shorten(keep);
        Ok(Turn::Further)
    }

    // Takes an atom that has no value; and where each has one, looks whether a clause is false.
    fn choose(&mut self, alloc: Global, guide: &mut Guide) -> Result<Turn, AllocError>
        requires { IsState self.old }
        ensures { IfOk result (IsTurned self.old self.new) }
    {
        if let Some(literal) = open_literal(&self.trail, &mut guide.order) {
            self.trail.push(literal, None)?;
            return Ok(Turn::Further);
        }
        match broken(&self.clauses, &self.trail) {
            Some(number) => self.learn(alloc, number, guide),
            None => Ok(Turn::Settled),
        }
    }

    // Learns from the clause of this number, which is false.
    fn learn(&mut self, alloc: Global, number: usize, guide: &mut Guide) -> Result<Turn, AllocError>
        requires state { IsState self.old }
        requires conflict { IsConflict (clauses_of self.old.clauses) self.old.trail.values number }
        ensures { IfOk result (IsTurned self.old self.new) }
    {
        let mut from = List::new(alloc);
        let mut level = Level::new(&self.trail);
        begin(
            &self.clauses,
            number,
            &self.trail,
            &mut self.marks,
            &mut level,
            &mut from,
        )?;
        match walk(
            &self.clauses,
            &mut self.trail,
            &mut self.marks,
            &mut level,
            &mut guide.order,
            &mut from,
        )? {
            Some(stop) => {
                narrow(
                    &self.clauses,
                    &self.trail,
                    stop,
                    &mut guide.plan,
                    &mut self.marks,
                    &mut level,
                    &mut from,
                )?;
                self.note(alloc, stop, from, guide)
            }
            None => {
                self.clauses.log.push(Learned {
                    lits: List::new(alloc),
                    from,
                })?;
                Ok(Turn::Refuted)
            }
        }
    }

    // Learns what is held where the walk has stopped, and concludes the opposite of the literal there from it.
    fn note(
        &mut self,
        alloc: Global,
        stop: Stop,
        from: List<u64>,
        guide: &mut Guide,
    ) -> Result<Turn, AllocError>
        requires clauses { AreLearned (length self.old.trail.values) self.old.clauses }
        requires many { length self.old.marks.marks ≡ length self.old.trail.values }
        requires stopped { IsStoppedAt (clauses_of self.old.clauses) from self.old.marks self.old.trail stop }
        ensures { IfOk result (IsNoted self.old stop self.new) }
    {
        retreat(&mut self.trail, stop.keep, &mut guide.order)?;
        let asserted = stop.literal.opposite();
        let lits = collect(alloc, asserted, &self.trail, &self.marks)?;
        guide.learn(
            lits.as_slice(),
            self.marks.touched.as_slice(),
            from.as_slice(),
            &self.trail,
        )?;
        let number = self.clauses.len();
        self.marks.clear();
        self.restarts.count();
        self.clauses.log.push(Learned { lits, from })?;
        self.trail.push(asserted, Some(number))?;
        Ok(Turn::Further)
    }
}

// The sign of an atom that has this value.
fn sign_of(value: Option<Value>) -> bool
    ensures { result ≡ sign_at value }
{
    match value {
        Some(value) => value.positive,
        None => false,
    }
}

// A literal of an atom that has no value.
fn open_literal(trail: &Trail, order: &mut Order) -> Option<Literal>
    ensures { MatchOption result (AllValued trail.now.values) (λ l. IsOpen trail.now.values l.atom) }
{
    if let Some(literal) = order.next(trail) {
        if is_open(trail, literal.atom) {
            return Some(literal);
        }
    }
    let atom = open_atom(trail)?;
    Some(Literal {
        atom,
        positive: false,
    })
}

// Whether the atom has no value.
fn is_open(trail: &Trail, atom: usize) -> bool
    ensures { IsTrue result → IsOpen trail.now.values atom }
{
    atom < trail.values.len() && trail.value(atom).is_none()
}

// An atom that has no value.
fn open_atom(trail: &Trail) -> Option<usize>
    ensures { MatchOption result (AllValued trail.now.values) (IsOpen trail.now.values) }
{
    let values = trail.values.as_slice();
    for (atom, value) in values.iter().enumerate() {
        if value.is_none() {
            return Some(atom);
        }
    }
    None
}

// The number of a clause that is false, among those that were given.
fn broken(clauses: &Clauses, trail: &Trail) -> Option<usize>
    ensures { MatchOption result (AllLoose trail.now.values clauses.now.inputs)
        (IsConflict (clauses_of clauses.now) trail.now.values) }
{
    let inputs = clauses.inputs.as_slice();
    for (number, clause) in inputs.iter().enumerate() {
        if let Finding::Broken = examine(clause.as_slice(), trail) {
            return Some(number);
        }
    }
    None
}
