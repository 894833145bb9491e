// The text of formulas.
ghost use Rattle.std.specs.Prelude.{◌≡◌, ◌++◌, OnOk, codes, map};
ghost use Rattle.canon_print.specs.Canonical as spec;
ghost use Rattle.canon_print.specs.code.Canonical as spec_code;
ghost use Rattle.canon_print.specs.Canonical.{term_text, formula_text, typed_clause_text, variable_text};
ghost use Rattle.canon_print.specs.code.Canonical.{unit_text};
ghost use Rattle.canon_print.specs.Words.{separated};

use crate::terms::{put_applied, put_sort, put_term};
use std::alloc::AllocError;
use tptp_base::{BinOp, BoundVar, Boxed, Quant, STerm, Surface};

// Appends a connective, with a blank on each side.
fn put_operator(operator: BinOp, text: &mut Vec<u8>) -> Result<(), AllocError>
    ensures { OnOk result (text.new.items ≡ text.old.items ++ spec.operator_text operator) }
{
    match operator {
        BinOp::Imp => text.extend_from_slice(b" => "),
        BinOp::RevImp => text.extend_from_slice(b" <= "),
        BinOp::Iff => text.extend_from_slice(b" <=> "),
        BinOp::Xor => text.extend_from_slice(b" <~> "),
        BinOp::Nor => text.extend_from_slice(b" ~| "),
        BinOp::Nand => text.extend_from_slice(b" ~& "),
    }
}

// Appends a quantifier, with the bracket that opens its variables.
fn put_quantifier(quantifier: Quant, text: &mut Vec<u8>) -> Result<(), AllocError>
    ensures { OnOk result (text.new.items ≡ text.old.items ++ spec.quantifier_text quantifier) }
{
    match quantifier {
        Quant::All => text.extend_from_slice(b"! ["),
        Quant::Ex => text.extend_from_slice(b"? ["),
    }
}

// Appends a bound variable, with its sort where it has one.
fn put_variable(variable: &BoundVar, text: &mut Vec<u8>) -> Result<(), AllocError>
    ensures { OnOk result (text.new.items ≡ text.old.items ++ variable_text variable.now) }
{
    text.extend_from_slice(variable.name.as_slice())?;
    match &variable.sort {
        Some(sort) => {
            text.extend_from_slice(b": ")?;
            put_sort(sort, text)
        }
        None => Ok(()),
    }
}

// Appends bound variables with commas between them.
fn put_variables(variables: &[BoundVar], text: &mut Vec<u8>) -> Result<(), AllocError>
    ensures { OnOk result (text.new.items ≡ text.old.items ++ separated (codes ",") (map variable_text variables.now)) }
{
    if let [first, others @ ..] = variables {
        put_variable(first, text)?;
        'others: for other in others {
            text.push(b',')?;
            put_variable(other, text)?;
        }
    }
    Ok(())
}

// Appends two terms with a mark between them.
fn put_equation(
    left: &STerm,
    mark: &[u8],
    right: &STerm,
    text: &mut Vec<u8>,
) -> Result<(), AllocError>
    ensures { OnOk result (text.new.items ≡ text.old.items
        ++ (term_text left.now ++ (mark.now ++ term_text right.now))) }
{
    put_term(left, text)?;
    text.extend_from_slice(mark)?;
    put_term(right, text)
}

// Whether the formula stands in parentheses where a unit is wanted.
#[tactic(auto, using(crate::proofs::Equations::formula_equations))]
fn is_compound(formula: &Surface) -> bool
    ensures { result ≡ spec_code.is_compound formula.now }
{
    match formula {
        Surface::And(_) | Surface::Or(_) | Surface::Binary(_, _, _) => true,
        Surface::True | Surface::False => false,
        Surface::Atom(_, _) | Surface::Eq(_, _) | Surface::Neq(_, _) => false,
        Surface::Not(_) | Surface::Bind(_, _, _) => false,
    }
}

// Appends the parenthesis that opens a unit, where it wants one.
fn put_opening(formula: &Surface, text: &mut Vec<u8>) -> Result<(), AllocError>
    ensures { OnOk result (text.new.items ≡ text.old.items ++ spec.opening (spec_code.is_compound formula.now)) }
{
    if is_compound(formula) {
        text.push(b'(')?;
    }
    Ok(())
}

// Appends the parenthesis that closes a unit, where it wants one.
fn put_closing(formula: &Surface, text: &mut Vec<u8>) -> Result<(), AllocError>
    ensures { OnOk result (text.new.items ≡ text.old.items ++ spec.closing (spec_code.is_compound formula.now)) }
{
    if is_compound(formula) {
        text.push(b')')?;
    }
    Ok(())
}

// Appends a formula as a unit.
#[cycle(put_formula)]
fn put_unit(part: &Boxed<Surface>, text: &mut Vec<u8>) -> Result<(), AllocError>
    ensures { OnOk result (text.new.items ≡ text.old.items ++ unit_text part.now) }
{
    put_opening(part.get(), text)?;
    put_formula(part.get(), text)?;
    put_closing(part.get(), text)
}

// Appends formulas as units, with the connective between them.
#[cycle(put_formula)]
fn put_units(parts: &[Surface], connective: &[u8], text: &mut Vec<u8>) -> Result<(), AllocError>
    ensures { OnOk result (text.new.items ≡ text.old.items ++ separated connective.now (map unit_text parts.now)) }
{
    if let [first, others @ ..] = parts {
        put_opening(first, text)?;
        put_formula(first, text)?;
        put_closing(first, text)?;
        'others: for other in others {
            text.extend_from_slice(connective)?;
            put_opening(other, text)?;
            put_formula(other, text)?;
            put_closing(other, text)?;
        }
    }
    Ok(())
}

// Appends a negation.
#[cycle(put_formula)]
fn put_negation(part: &Boxed<Surface>, text: &mut Vec<u8>) -> Result<(), AllocError>
    ensures { OnOk result (text.new.items ≡ text.old.items ++ (codes "~ " ++ unit_text part.now)) }
{
    text.extend_from_slice(b"~ ")?;
    put_unit(part, text)
}

// Appends a formula under a quantifier.
#[cycle(put_formula)]
fn put_bound(
    quantifier: Quant,
    variables: &[BoundVar],
    part: &Boxed<Surface>,
    text: &mut Vec<u8>,
) -> Result<(), AllocError>
    ensures { OnOk result (text.new.items ≡ text.old.items
        ++ (spec.quantifier_text quantifier
        ++ (separated (codes ",") (map variable_text variables.now) ++ (codes "] : " ++ unit_text part.now)))) }
{
    put_quantifier(quantifier, text)?;
    put_variables(variables, text)?;
    text.extend_from_slice(b"] : ")?;
    put_unit(part, text)
}

/// Appends a formula.
#[tactic(auto, using(crate::proofs::Equations::formula_equations))]
#[cycle(put_formula)]
pub fn put_formula(formula: &Surface, text: &mut Vec<u8>) -> Result<(), AllocError>
    ensures { OnOk result (text.new.items ≡ text.old.items ++ formula_text formula.now) }
{
    match formula {
        Surface::True => text.extend_from_slice(b"$true"),
        Surface::False => text.extend_from_slice(b"$false"),
        Surface::Atom(word, terms) => put_applied(word.as_slice(), terms.as_slice(), text),
        Surface::Eq(left, right) => put_equation(left, b" = ", right, text),
        Surface::Neq(left, right) => put_equation(left, b" != ", right, text),
        Surface::Not(part) => put_negation(part, text),
        Surface::And(parts) => put_units(parts.as_slice(), b" & ", text),
        Surface::Or(parts) => put_units(parts.as_slice(), b" | ", text),
        Surface::Binary(operator, left, right) => {
            put_unit(left, text)?;
            put_operator(*operator, text)?;
            put_unit(right, text)
        }
        Surface::Bind(quantifier, variables, part) => {
            put_bound(*quantifier, variables.as_slice(), part, text)
        }
    }
}

// Appends a typed clause under a quantifier, with no parentheses round it.
#[cycle(put_typed_clause)]
fn put_clause_under(
    quantifier: Quant,
    variables: &[BoundVar],
    part: &Boxed<Surface>,
    text: &mut Vec<u8>,
) -> Result<(), AllocError>
    ensures { OnOk result (text.new.items ≡ text.old.items
        ++ (spec.quantifier_text quantifier
        ++ (separated (codes ",") (map variable_text variables.now) ++ (codes "] : " ++ typed_clause_text part.now)))) }
{
    put_quantifier(quantifier, text)?;
    put_variables(variables, text)?;
    text.extend_from_slice(b"] : ")?;
    put_typed_clause(part.get(), text)
}

/// Appends a typed clause: what its quantifiers bind has no parentheses.
#[tactic(auto, using(crate::proofs::Equations::clause_equations))]
#[cycle(put_typed_clause)]
pub fn put_typed_clause(formula: &Surface, text: &mut Vec<u8>) -> Result<(), AllocError>
    ensures { OnOk result (text.new.items ≡ text.old.items ++ typed_clause_text formula.now) }
{
    match formula {
        Surface::Bind(quantifier, variables, part) => {
            put_clause_under(*quantifier, variables.as_slice(), part, text)
        }
        Surface::And(_) | Surface::Or(_) | Surface::Binary(_, _, _) => put_formula(formula, text),
        Surface::True | Surface::False | Surface::Not(_) => put_formula(formula, text),
        Surface::Atom(_, _) | Surface::Eq(_, _) | Surface::Neq(_, _) => put_formula(formula, text),
    }
}
