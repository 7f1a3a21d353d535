// What is called, and which constructor arguments select.
ghost use Rattle.std.specs.Prelude.{◌≡◌, IfOk, map};
ghost use Rattle.cxx_ast.specs.View.{checked_of, expression_of, expressions_of};
ghost use Rattle.meaning_forms.specs.Expression.{lvalue_of};
ghost use Rattle.scope_world.specs.Objects.{type_of};
ghost use Rattle.scope_flow.specs.Asked.{constructor_of, parameter_types_of};
ghost use Rattle.region_forms.specs.LowerExpression as rules;
ghost use Rattle.region_ir.specs.Given.{lowering_of};
ghost use Rattle.region_ir.specs.View.{argument_of, callee_of};

use crate::NoMemory;
use crate::held::put;
use crate::lowering::Lowering;
use crate::value::{Arg, Callee};
use cxx_ast::expression::Expr;
use cxx_ast::name::{Bound, Name};
use cxx_ast::program::Checked;
use cxx_ast::types::Ty;
use scope_flow::{
    Constructor, Parameters, callee_bound, constructor_for, copy_constructor, lvalue_of,
};
use scope_world::{ObjectType, derives, members_of, object_type};

/// What is called by a name's binding.
pub fn callee_of(l: &Lowering<'_>, bound: Bound) -> Result<Callee, NoMemory>
    ensures { IfOk result (λ c. callee_of c ≡ rules.callee_of (lowering_of l.now) bound) }
{
    match bound {
        Bound::Func(function) => Ok(Callee::Func(function)),
        Bound::Method(class, place) => {
            Ok(Callee::Func(l.numbering.method(class, place as usize)?))
        }
        Bound::Builtin(function) => Ok(Callee::Builtin(function)),
        _ => Ok(Callee::Func(0)),
    }
}

/// A member function gets the address of its object first.
pub fn receiver_argument(
    l: &Lowering<'_>,
    bound: Bound,
    object: &[Name],
) -> Result<Vec<Arg>, NoMemory>
    ensures { IfOk result (λ a. map argument_of a.items ≡ rules.receiver_argument (lowering_of l.now) bound object.now) }
{
    let mut given = Vec::new(l.alloc);
    if let Bound::Method(_, _) = bound {
        put(Arg::Address(l.place_of(object)?), &mut given)?;
    }
    Ok(given)
}

// The type of a member.
fn member_type(program: &Checked, class: u32, member: u32) -> ObjectType
    ensures { type_of result ≡ rules.member_type (checked_of program.now) class member }
{
    match members_of(program, class).get(member as usize) {
        Some(it) => object_type(&it.ty),
        None => ObjectType::Int,
    }
}

// The type of what a name names.
fn named_type(l: &Lowering<'_>, bound: Bound) -> ObjectType
    ensures { type_of result ≡ rules.named_type (lowering_of l.now) bound }
{
    match bound {
        Bound::Local(number) => match l.variables.get(number as usize) {
            Some(variable) => variable.object_type(),
            None => ObjectType::Int,
        },
        Bound::Field(class, member) => member_type(l.numbering.program, class, member),
        _ => ObjectType::Int,
    }
}

/// The type of `a.b.c`.
pub fn lvalue_type(l: &Lowering<'_>, names: &[Name]) -> ObjectType
    ensures { type_of result ≡ rules.lvalue_type (lowering_of l.now) names.now }
{
    named_type(l, callee_bound(names))
}

// Whether an argument is an lvalue of the class, or of one derived from it.
fn copies(l: &Lowering<'_>, class: u32, e: &Expr) -> bool
    ensures { result ≡ rules.copies (lowering_of l.now) class (lvalue_of (expression_of e.now)) }
{
    match lvalue_of(e) {
        None => false,
        Some(names) => derives(
            l.numbering.program,
            lvalue_type(l, names),
            ObjectType::Class(class),
        ),
    }
}

/// A single argument of the class, or of one derived from it, selects the copy constructor, and else their number selects.
#[tactic(auto, using(crate::proofs::ByNumber::chosen_by_number))]
pub fn constructor_chosen(l: &Lowering<'_>, class: u32, arguments: &[Expr]) -> Constructor
    ensures { constructor_of result ≡ rules.constructor_chosen (lowering_of l.now) class (expressions_of arguments.now) }
{
    let program = l.numbering.program;
    match arguments {
        [only] => {
            if copies(l, class, only) {
                copy_constructor(program, class)
            } else {
                constructor_for(program, class, 1)
            }
        }
        _ => constructor_for(program, class, arguments.len()),
    }
}

/// Whether the first of some parameters is a reference.
pub fn refers(parameters: Parameters<'_>) -> bool
    ensures { result ≡ rules.refers (parameter_types_of parameters.entry) }
{
    match parameters {
        Parameters::CopyOf(_) => true,
        Parameters::Of(parameters) => match parameters.first() {
            None => false,
            Some(first) => matches!(&first.ty, Ty::IntRef(_) | Ty::ObjectRef(_, _)),
        },
    }
}
