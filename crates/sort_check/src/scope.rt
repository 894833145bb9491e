// The variables that stand for something at a place in a formula.
ghost use Rattle.std.specs.Prelude.{◌≡◌, ◌+◌, ◌≤◌, ◌<◌, ◌++◌, ◌∷◌, [], length, IfOk, OnOk, OnErr, MatchOption};
ghost use Rattle.std.specs.Prelude.{MatchResult};
ghost use Rattle.sort_check.specs.declared.fault.SortRule.TheVariants.{Variables};
ghost use Rattle.sort_check.specs.declared.fault.Stop.TheVariants.{Rule};
ghost use Rattle.sort_check.specs.Denotation.{nearest};

use crate::fault::{SortRule, Stop};
use crate::room::add_behind;
use fof_terms::SortId;
use std::alloc::{AllocError, Global};
use std::marker::Model;
use tptp_base::List;

/// The most bound variables of a formula, and the most variables of a clause.
pub const MAX_VARIABLES: u32 = 250;

/// The bytes of a name that a formula lends.
#[derive(Drop)]
pub struct Lent<'a> {
    bytes: &'a [u8],
}

impl<'a> Model for Lent<'a> {
    ghost use Rattle.std.specs.Prelude.{ℕ, List};

    ghost Value = { List ℕ };

    ghost view = { λ name. name.bytes.now };
}

impl<'a> Lent<'a> {
    /// The name of these bytes.
    pub fn new(bytes: &'a [u8]) -> Lent<'a>
        ensures { result ≡ bytes.now }
    {
        Lent { bytes }
    }

    /// Its bytes.
    pub fn as_slice(&self) -> &'a [u8]
        ensures { result.now ≡ self.now }
    {
        self.bytes
    }
}

/// A variable that a binder binds, and its sort.
#[derive(Drop)]
pub struct Variable<'a> {
    pub name: Lent<'a>,
    pub sort: SortId,
}

/// The variables in scope, the outermost first, how many the formula has bound so far, the fault of a variable that is
/// not in scope, and whether a new symbol has the sorts of its place.
#[derive(Drop)]
pub struct Scope<'a> {
    variables: List<Variable<'a>>,
    bound: u32,
    outside: SortRule,
    by_place: bool,
}

impl<'a> Model for Scope<'a> {
    ghost use Rattle.sort_check.specs.code.Reach.{Reach, IsReach};

    ghost Value = { Reach };

    ghost view = { λ s. record {
      variables = s.variables;
      bound = s.bound;
      outside = s.outside;
      by_place = s.by_place;
    } };

    ghost invariant = { λ s. IsReach (record {
      variables = s.variables;
      bound = s.bound;
      outside = s.outside;
      by_place = s.by_place;
    }) };
}

impl<'a> Scope<'a> {
    /// The scope of a formula over these variables.
    pub fn over(variables: List<Variable<'a>>, outside: SortRule, by_place: bool) -> Scope<'a>
        requires { length variables ≤ 250 }
        ensures { result ≡ record { variables = variables.entry; bound = 0; outside = outside; by_place = by_place } }
    {
        Scope {
            variables,
            bound: 0,
            outside,
            by_place,
        }
    }

    /// The fault of a variable that is not in scope.
    pub fn outside(&self) -> SortRule
        ensures { result ≡ self.now.outside }
    {
        self.outside
    }

    /// Whether a new symbol has the sorts of its place.
    pub fn by_place(&self) -> bool
        ensures { result ≡ self.now.by_place }
    {
        self.by_place
    }

    /// How many variables are in scope.
    pub fn len(&self) -> usize
        ensures value { result ≡ length self.now.variables }
        ensures few { length self.now.variables ≤ self.now.bound + 250 }
    {
        self.variables.len()
    }

    /// The innermost variable of that name: how many binders stand within its own, and its sort.
    pub fn find(&self, name: &[u8]) -> Option<(u32, SortId)>
        ensures { result ≡ nearest self.now.variables name.now }
    {
        innermost(self.variables.as_slice(), name)
    }

    /// Counts a further bound variable, unless there are 250.
    pub fn count(&mut self) -> Result<(), Stop>
        ensures ok { OnOk result ((self.old.bound < 250)
            × (self.new ≡ record self.old { bound = self.old.bound + 1 })) }
        ensures err { OnErr result ((self.old.bound ≡ 250) × (result ≡ Err (Rule Variables))) }
    {
        if self.bound >= MAX_VARIABLES {
            return Err(Stop::Rule(SortRule::Variables));
        }
        self.bound += 1;
        Ok(())
    }

    /// Further variables, each within those before it.
    pub fn open(&mut self, alloc: Global, more: List<Variable<'a>>) -> Result<(), AllocError>
        requires { length self.old.variables + length more ≤ self.old.bound + 250 }
        ensures { OnOk result (self.new ≡ record self.old { variables = self.old.variables ++ more.entry }) }
    {
        add_behind(alloc, &mut self.variables, more)
    }

    /// Takes the innermost variable out.
    pub fn close(&mut self) -> Option<Variable<'a>>
        ensures { MatchOption result ((self.old.variables ≡ []) × (self.new ≡ self.old))
            (λ last. self.old ≡ record self.new { variables = self.new.variables ++ last ∷ [] }) }
    {
        self.variables.pop()
    }
}

// The last variable of that name: how many stand behind it, and its sort.
fn innermost(variables: &[Variable<'_>], name: &[u8]) -> Option<(u32, SortId)>
    requires { length variables.now ≤ 500 }
    ensures { result ≡ nearest variables.now name.now }
{
    for behind in 0..variables.len() {
        let variable = &variables[variables.len() - 1 - behind];
        if variable.name.as_slice() == name {
            return Some((behind as u32, variable.sort));
        }
    }
    None
}
