// The classes, the globals and the functions of a program.
ghost use Rattle.std.specs.Prelude.{◌≡◌, ◌++◌, ◌∷◌, [], IfOk, OnOk, map};
ghost use Rattle.cxx_ast.specs.Checked.{bad_exception};
ghost use Rattle.cxx_ast.specs.Plain.{function_declaration};
ghost use Rattle.cxx_ast.specs.View.{class_of, function_of, declaration_of};
ghost use Rattle.cxx_check.specs.PartsOf.{class_in, global_in, function_in};

use crate::NoMemory;
use crate::held::put;
use cxx_ast::declaration::{ClassDecl, Decl, Func};
use cxx_ast::name::{Bound, Name};
use cxx_ast::text::Text;
use std::alloc::Global;

/// The classes, `std::bad_exception` first, the first values of the globals, and the functions that are defined.
#[derive(Drop)]
pub struct Parts {
    pub classes: Vec<ClassDecl>,
    pub globals: Vec<i32>,
    pub functions: Vec<Func>,
}

// The class `std::bad_exception`.
fn bad_exception(alloc: Global) -> Result<ClassDecl, NoMemory>
    ensures { IfOk result (λ c. class_of c ≡ bad_exception) }
{
    let name = Name {
        text: Text::copied(alloc, b"std::bad_exception".as_slice())?,
        place: 0,
        bound: Bound::Class(0),
    };
    Ok(ClassDecl {
        name,
        base: None,
        members: Vec::new(alloc),
        funcs: Vec::new(alloc),
    })
}

impl Parts {
    /// `std::bad_exception` alone.
    pub fn new(alloc: Global) -> Result<Self, NoMemory>
        ensures classes { IfOk result (λ p. map class_of p.classes.items ≡ bad_exception ∷ []) }
        ensures globals { IfOk result (λ p. p.globals.items ≡ []) }
        ensures functions { IfOk result (λ p. p.functions.items ≡ []) }
    {
        let first = bad_exception(alloc)?;
        let mut classes = Vec::new(alloc);
        put(first, &mut classes)?;
        Ok(Parts {
            classes,
            globals: Vec::new(alloc),
            functions: Vec::new(alloc),
        })
    }

    /// Takes what a declaration declares.
    pub fn add(&mut self, d: Decl) -> Result<(), NoMemory>
        ensures classes { OnOk result (map class_of self.new.classes.items ≡ map class_of self.old.classes.items ++ class_in (declaration_of d)) }
        ensures globals { OnOk result (self.new.globals.items ≡ self.old.globals.items ++ global_in (declaration_of d)) }
        ensures functions { OnOk result (map function_of self.new.functions.items ≡ map function_of self.old.functions.items ++ function_in (declaration_of d)) }
    {
        match d {
            Decl::Class(c) => put(c, &mut self.classes),
            Decl::Global(_, value) => put(value, &mut self.globals),
            Decl::Func(f) => add_function(&mut self.functions, f),
        }
    }
}

// Takes a function, where it is defined.
fn add_function(functions: &mut Vec<Func>, f: Func) -> Result<(), NoMemory>
    ensures { OnOk result (map function_of functions.new.items ≡ map function_of functions.old.items ++ function_in (function_declaration (function_of f))) }
{
    if f.body.is_none() {
        return Ok(());
    }
    put(f, functions)
}
