// The variables of a function, in order of declaration.
ghost use Rattle.std.specs.Prelude.{◌≡◌, ◌++◌, ◌∷◌, [], map, IfOk, OnOk};
ghost use Rattle.cxx_ast.specs.View.{function_of, statement_of, statements_of, handlers_of};
ghost use Rattle.meaning_forms.specs.Class.{object_type};
ghost use Rattle.scope_world.specs.Objects.{type_of};
ghost use Rattle.region_forms.specs.Numbering as rules;
ghost use Rattle.region_ir.specs.Variables.{declared_by, type_in};

use crate::NoMemory;
use cxx_ast::declaration::Func;
use cxx_ast::name::Name;
use cxx_ast::statement::{Handler, Stmt};
use cxx_ast::types::Ty;
use scope_world::{ObjectType, class_named};
use std::alloc::Global;

/// The type of a variable. An object and a reference to one have the name of a class.
#[derive(Clone, Copy)]
pub enum Variable<'a> {
    Int,
    Void,
    Object(&'a Name),
    IntRef(bool),
    ObjectRef(bool, &'a Name),
}

impl<'a> Variable<'a> {
    /// A variable of a type.
    pub fn of(ty: &'a Ty) -> Self
        ensures { type_in result ≡ ty.now }
    {
        match ty {
            Ty::Int => Variable::Int,
            Ty::Void => Variable::Void,
            Ty::Object(name) => Variable::Object(name),
            Ty::IntRef(is_const) => Variable::IntRef(*is_const),
            Ty::ObjectRef(is_const, name) => Variable::ObjectRef(*is_const, name),
        }
    }

    /// The type of the object that the variable holds or refers to.
    pub fn object_type(&self) -> ObjectType
        ensures { type_of result ≡ object_type (type_in self.now) }
    {
        match self {
            Variable::Object(name) | Variable::ObjectRef(_, name) => {
                ObjectType::Class(class_named(name))
            }
            _ => ObjectType::Int,
        }
    }
}

// A variable behind others.
fn with_variable<'a>(variables: &mut Vec<Variable<'a>>, it: Variable<'a>) -> Result<(), NoMemory>
    ensures { OnOk result (map type_in variables.new.items ≡ map type_in variables.old.items ++ type_in it.entry ∷ []) }
{
    variables.push(it)?;
    Ok(())
}

// The variables that a statement declares, behind others.
#[tactic(auto, using(cxx_ast::proofs::Rows::statement_rows))]
#[cycle(variables)]
fn with_statement<'a>(variables: &mut Vec<Variable<'a>>, s: &'a Stmt) -> Result<(), NoMemory>
    ensures { OnOk result (map type_in variables.new.items ≡ map type_in variables.old.items ++ rules.declared_in (statement_of s.now)) }
{
    match s {
        Stmt::Block(ss) => with_statements(variables, ss.as_slice()),
        Stmt::If(_, body, None) => with_statement(variables, body),
        Stmt::If(_, body, Some(other)) => {
            with_statement(variables, body)?;
            with_statement(variables, other)
        }
        Stmt::While(_, body) => with_statement(variables, body),
        Stmt::Try(ss, hs) => {
            with_statements(variables, ss.as_slice())?;
            with_handlers(variables, hs.as_slice())?;
            Ok(())
        }
        Stmt::LocalInt(_, _) => with_variable(variables, Variable::Int),
        Stmt::LocalRef(reference, _) => with_variable(variables, Variable::of(&reference.ty)),
        Stmt::LocalObject(class, _, _) => with_variable(variables, Variable::Object(class)),
        Stmt::Empty => Ok(()),
        Stmt::Return(_, _) => Ok(()),
        Stmt::Break(_) => Ok(()),
        Stmt::Continue(_) => Ok(()),
        Stmt::Throw(_, _) => Ok(()),
        Stmt::Assign(_, _) => Ok(()),
        Stmt::Call(_) => Ok(()),
    }
}

/// The variables that statements declare, behind others.
#[cycle(variables)]
pub fn with_statements<'a>(
    variables: &mut Vec<Variable<'a>>,
    ss: &'a [Stmt],
) -> Result<(), NoMemory>
    ensures { OnOk result (map type_in variables.new.items ≡ map type_in variables.old.items ++ rules.all_declared_in (statements_of ss.now)) }
{
    for s in ss {
        with_statement(variables, s)?;
    }
    Ok(())
}

// The variables of a handler, behind others: its parameter, named or not, and those of its body.
#[cycle(variables)]
fn with_handler<'a>(variables: &mut Vec<Variable<'a>>, h: &'a Handler) -> Result<(), NoMemory>
    ensures { OnOk result (map type_in variables.new.items ≡ map type_in variables.old.items ++ (declared_by h.now.ty ++ rules.all_declared_in (statements_of h.now.body.items))) }
{
    if let Some(ty) = &h.ty {
        with_variable(variables, Variable::of(ty))?;
    }
    with_statements(variables, h.body.as_slice())
}

// The variables of handlers, behind others.
#[tactic(auto, using(crate::proofs::Declared::one_caught))]
#[cycle(variables)]
fn with_handlers<'a>(variables: &mut Vec<Variable<'a>>, hs: &'a [Handler]) -> Result<(), NoMemory>
    ensures { OnOk result (map type_in variables.new.items ≡ map type_in variables.old.items ++ rules.declared_in_handlers (handlers_of hs.now)) }
{
    for h in hs {
        with_handler(variables, h)?;
    }
    Ok(())
}

/// The variables of a function: its parameters, then those that its body declares.
pub fn variables_of(alloc: Global, function: &Func) -> Result<Vec<Variable<'_>>, NoMemory>
    ensures { IfOk result (λ v. map type_in v.items ≡ rules.variables_of (function_of function.now)) }
{
    let mut variables = Vec::new(alloc);
    for parameter in function.params.as_slice() {
        variables.push(Variable::of(&parameter.ty))?;
    }
    if let Some(body) = &function.body {
        with_statements(&mut variables, body.as_slice())?;
    }
    Ok(variables)
}
