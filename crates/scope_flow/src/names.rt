// What the names of a call stand for, and the parameters that its arguments are for.

ghost use Rattle.std.specs.Prelude.{◌≡◌, option_map, drop};
ghost use Rattle.cxx_ast.specs.View.{checked_of, expression_of, expressions_of};
ghost use Rattle.meaning_forms.specs.Expression as rules;
ghost use Rattle.scope_flow.specs.Asked.{constructor_of, parameter_types_of};

use crate::Constructor;
use cxx_ast::expression::Expr;
use cxx_ast::name::{Bound, Name};
use cxx_ast::program::Checked;
use cxx_ast::types::Param;
use scope_world::{function_at, method_at, parameters_of};

/// The parameters that arguments are for: those of a function, or that of the implicit copy constructor of a class.
#[derive(Clone, Copy)]
pub enum Parameters<'a> {
    Of(&'a [Param]),
    CopyOf(u32),
}

impl Parameters<'_> {
    /// Those behind the first.
    pub fn behind(&self) -> Self
        ensures { parameter_types_of result ≡ drop 1 (parameter_types_of self.now) }
    {
        match self {
            Parameters::CopyOf(_) => Parameters::Of(&[]),
            Parameters::Of(parameters) => match parameters.split_first() {
                None => Parameters::Of(&[]),
                Some((_, others)) => Parameters::Of(others),
            },
        }
    }
}

/// The names of the lvalue that an expression is, in parentheses or not.
pub fn lvalue_of(e: &Expr) -> Option<&[Name]>
    ensures { option_map (λ x. x.now) result ≡ rules.lvalue_of (expression_of e.now) }
{
    match e {
        Expr::Path(it) => Some(it.path.as_slice()),
        Expr::Paren(inner, _) => lvalue_of(inner),
        _ => None,
    }
}

/// The names of an lvalue.
pub fn names_of(e: &Expr) -> &[Name]
    ensures { result.now ≡ rules.names_of (rules.lvalue_of (expression_of e.now)) }
{
    match lvalue_of(e) {
        Some(names) => names,
        None => &[],
    }
}

/// What the last name of `a.b.f` is bound to.
#[tactic(auto, using(crate::proofs::Named::last_bound))]
pub fn callee_bound(names: &[Name]) -> Bound
    ensures { result ≡ rules.callee_bound names.now }
{
    match names.split_last() {
        Some((name, _)) => name.bound,
        None => Bound::Free,
    }
}

/// The names before the last of `a.b.f`.
#[tactic(auto, using(crate::proofs::Named::before_last))]
pub fn receiver(names: &[Name]) -> &[Name]
    ensures { result.now ≡ rules.receiver names.now }
{
    match names.split_last() {
        Some((_, before)) => before,
        None => &[],
    }
}

/// The parameters of what a name is bound to.
pub fn parameters_for(program: &Checked, bound: Bound) -> Parameters<'_>
    ensures { parameter_types_of result ≡ rules.parameter_types (checked_of program.now) bound }
{
    match bound {
        Bound::Func(n) => Parameters::Of(parameters_of(function_at(program, n))),
        Bound::Method(class, place) => {
            Parameters::Of(parameters_of(method_at(program, class, place as usize)))
        }
        _ => Parameters::Of(&[]),
    }
}

/// The parameters of a constructor.
pub fn constructor_parameters(program: &Checked, class: u32, which: Constructor) -> Parameters<'_>
    ensures { parameter_types_of result ≡ rules.constructor_types (checked_of program.now) class (constructor_of which) }
{
    match which {
        Constructor::Declared(place) => {
            Parameters::Of(parameters_of(method_at(program, class, place)))
        }
        Constructor::ImplicitDefault => Parameters::Of(&[]),
        Constructor::ImplicitCopy => Parameters::CopyOf(class),
    }
}

/// The function that is the argument of set_terminate or set_unexpected, whose name is not evaluated.
pub fn function_named(es: &[Expr]) -> Option<u32>
    ensures { result ≡ rules.function_named (expressions_of es.now) }
{
    match es.first() {
        None => None,
        Some(e) => match callee_bound(names_of(e)) {
            Bound::Func(n) => Some(n),
            _ => None,
        },
    }
}
