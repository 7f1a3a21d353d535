// The names that a program declares.
ghost use Rattle.std.specs.Prelude.{◌≡◌, ◌++◌, ◌∷◌, [], OnOk, IfOk, flat_map, map};
ghost use Rattle.cxx_ast.specs.ClassRules.{method_names};
ghost use Rattle.cxx_ast.specs.DeclaredNames.{some_name, names_in, names_of, names_caught, param_names, body_names, inside_function, names_declared};
ghost use Rattle.cxx_ast.specs.View.{statement_of, statements_of, function_of, class_of, declaration_of, handlers_of};
ghost use Rattle.cxx_check.specs.InsideOf.{body_of};
ghost use Rattle.cxx_check.specs.OwnParts.{names_now};
ghost use Rattle.cxx_check.specs.Once.{class_names_in};

use crate::NoMemory;
use cxx_ast::declaration::{ClassDecl, Decl, Func, FuncKind};
use cxx_ast::name::Name;
use cxx_ast::statement::{Handler, Stmt};
use cxx_ast::types::Param;
use std::alloc::Global;

// A name behind others.
fn with_name<'t>(names: &mut Vec<&'t Name>, name: &'t Name) -> Result<(), NoMemory>
    ensures { OnOk result (names_now names.new.items ≡ names_now names.old.items ++ name.now ∷ []) }
{
    names.push(name)?;
    Ok(())
}

// A name behind others, where there is one.
fn with_some<'t>(names: &mut Vec<&'t Name>, name: &'t Option<Name>) -> Result<(), NoMemory>
    ensures { OnOk result (names_now names.new.items ≡ names_now names.old.items ++ some_name name.now) }
{
    match name {
        None => Ok(()),
        Some(name) => with_name(names, name),
    }
}

// The names that a statement declares, behind others.
#[tactic(auto, using(cxx_ast::proofs::Rows::statement_rows))]
#[cycle(names)]
fn with_statement<'t>(names: &mut Vec<&'t Name>, s: &'t Stmt) -> Result<(), NoMemory>
    ensures { OnOk result (names_now names.new.items ≡ names_now names.old.items ++ names_in (statement_of s.now)) }
{
    match s {
        Stmt::Block(ss) => with_statements(names, ss.as_slice()),
        Stmt::If(_, body, None) => with_statement(names, body),
        Stmt::If(_, body, Some(other)) => {
            with_statement(names, body)?;
            with_statement(names, other)
        }
        Stmt::While(_, body) => with_statement(names, body),
        Stmt::Try(ss, hs) => {
            with_statements(names, ss.as_slice())?;
            with_handlers(names, hs.as_slice())?;
            Ok(())
        }
        Stmt::LocalInt(name, _) => with_name(names, name),
        Stmt::LocalRef(param, _) => with_some(names, &param.name),
        Stmt::LocalObject(_, name, _) => with_name(names, name),
        Stmt::Empty => Ok(()),
        Stmt::Return(_, _) => Ok(()),
        Stmt::Break(_) => Ok(()),
        Stmt::Continue(_) => Ok(()),
        Stmt::Throw(_, _) => Ok(()),
        Stmt::Assign(_, _) => Ok(()),
        Stmt::Call(_) => Ok(()),
    }
}

// The names that statements declare, behind others.
#[cycle(names)]
fn with_statements<'t>(names: &mut Vec<&'t Name>, ss: &'t [Stmt]) -> Result<(), NoMemory>
    ensures { OnOk result (names_now names.new.items ≡ names_now names.old.items ++ names_of (statements_of ss.now)) }
{
    for s in ss {
        with_statement(names, s)?;
    }
    Ok(())
}

// The names that a handler declares, behind others.
#[cycle(names)]
fn with_handler<'t>(names: &mut Vec<&'t Name>, h: &'t Handler) -> Result<(), NoMemory>
    ensures { OnOk result (names_now names.new.items ≡ names_now names.old.items ++ (some_name h.now.name ++ names_of (statements_of h.now.body.items))) }
{
    with_some(names, &h.name)?;
    with_statements(names, h.body.as_slice())
}

// The names that handlers declare, behind others.
#[cycle(names)]
fn with_handlers<'t>(names: &mut Vec<&'t Name>, hs: &'t [Handler]) -> Result<(), NoMemory>
    ensures { OnOk result (names_now names.new.items ≡ names_now names.old.items ++ names_caught (handlers_of hs.now)) }
{
    for h in hs {
        with_handler(names, h)?;
    }
    Ok(())
}

// The names of parameters or data members, behind others.
fn with_params<'t>(names: &mut Vec<&'t Name>, params: &'t [Param]) -> Result<(), NoMemory>
    ensures { OnOk result (names_now names.new.items ≡ names_now names.old.items ++ param_names params.now) }
{
    for param in params {
        with_some(names, &param.name)?;
    }
    Ok(())
}

// The names in a body, behind others.
fn with_body<'t>(names: &mut Vec<&'t Name>, body: &'t Option<Vec<Stmt>>) -> Result<(), NoMemory>
    ensures { OnOk result (names_now names.new.items ≡ names_now names.old.items ++ body_names (body_of body.now)) }
{
    match body {
        None => Ok(()),
        Some(ss) => with_statements(names, ss.as_slice()),
    }
}

// The names inside a function, behind others.
fn with_inside<'t>(names: &mut Vec<&'t Name>, f: &'t Func) -> Result<(), NoMemory>
    ensures { OnOk result (names_now names.new.items ≡ names_now names.old.items ++ inside_function (function_of f.now)) }
{
    with_params(names, f.params.as_slice())?;
    with_body(names, &f.body)
}

// The names of methods, behind others.
fn with_methods<'t>(names: &mut Vec<&'t Name>, funcs: &'t [Func]) -> Result<(), NoMemory>
    ensures { OnOk result (names_now names.new.items ≡ names_now names.old.items ++ method_names (map function_of funcs.now)) }
{
    for f in funcs {
        if matches!(f.kind, FuncKind::Method) {
            names.push(&f.name)?;
        }
    }
    Ok(())
}

// The names inside functions, behind others.
fn with_insides<'t>(names: &mut Vec<&'t Name>, funcs: &'t [Func]) -> Result<(), NoMemory>
    ensures { OnOk result (names_now names.new.items ≡ names_now names.old.items ++ flat_map inside_function (map function_of funcs.now)) }
{
    for f in funcs {
        with_inside(names, f)?;
    }
    Ok(())
}

// The names of a class and of its parts, behind others.
fn with_class<'t>(names: &mut Vec<&'t Name>, c: &'t ClassDecl) -> Result<(), NoMemory>
    ensures { OnOk result (names_now names.new.items ≡ names_now names.old.items ++ class_names_in (class_of c.now)) }
{
    with_name(names, &c.name)?;
    with_params(names, c.members.as_slice())?;
    with_methods(names, c.funcs.as_slice())?;
    with_insides(names, c.funcs.as_slice())
}

// The names of a function, behind others.
fn with_function<'t>(names: &mut Vec<&'t Name>, f: &'t Func) -> Result<(), NoMemory>
    ensures { OnOk result (names_now names.new.items ≡ names_now names.old.items ++ (f.now.name ∷ inside_function (function_of f.now))) }
{
    with_name(names, &f.name)?;
    with_inside(names, f)
}

// The names of a declaration, behind others.
fn with_declaration<'t>(names: &mut Vec<&'t Name>, d: &'t Decl) -> Result<(), NoMemory>
    ensures { OnOk result (names_now names.new.items ≡ names_now names.old.items ++ names_declared (declaration_of d.now)) }
{
    match d {
        Decl::Class(c) => with_class(names, c),
        Decl::Global(name, _) => with_name(names, name),
        Decl::Func(f) => with_function(names, f),
    }
}

/// All names that a program declares, in order.
pub fn names_declared<'t>(alloc: Global, decls: &'t [Decl]) -> Result<Vec<&'t Name>, NoMemory>
    ensures { IfOk result (λ names. names_now names.items ≡ flat_map names_declared (map declaration_of decls.now)) }
{
    let mut names = Vec::new(alloc);
    for d in decls {
        with_declaration(&mut names, d)?;
    }
    Ok(names)
}
