// The names of a program.
ghost use Rattle.std.specs.Prelude.{◌≡◌, ◌++◌, [], ◌∷◌, map, IfOk, OnOk};
ghost use Rattle.cxx_ast.specs.View.{checked_of, class_of, declaration_of, function_of};
ghost use Rattle.meaning_forms.specs.Class as classes;
ghost use Rattle.region_forms.specs.LowerProgram.{some_constructor};
ghost use Rattle.symbol_names.specs.Names.{function_name, own_names, declared_names, unless_declared, class_names, classes_names, functions_names, kept, record_name, records_from, types_names, globals_names};

use crate::NoMemory;
use crate::function::{Member, copy_name, free_name, kept, member_name, record_name};
use cxx_ast::declaration::{ClassDecl, Decl, Func, FuncKind};
use cxx_ast::program::Checked;
use eh_bytes::RowName;
use scope_flow::{Constructor, copy_constructor, destructor_place};
use scope_world::methods_of;
use std::alloc::{AllocError, Global};

/// The names of a program's functions, in the order of their numbers, of its types and of its globals; a name of more than 96
/// bytes is left out, and so are functions that are never called.
#[derive(Drop)]
pub struct SymbolNames {
    pub functions: Vec<Option<RowName>>,
    pub types: Vec<Option<RowName>>,
    pub globals: Vec<Option<RowName>>,
}

fn function_name(alloc: Global, is_main: bool, function: &Func) -> Result<Option<RowName>, NoMemory>
    ensures { IfOk result (λ name. name ≡ function_name is_main (function_of function.now)) }
{
    if is_main {
        return Ok(Some(RowName::new(Vec::from_slice(alloc, b"main".as_slice())?)));
    }
    Ok(kept(free_name(alloc, function)?))
}

// Appends the names of the program's own functions.
fn put_own_names(
    alloc: Global,
    program: &Checked,
    names: &mut Vec<Option<RowName>>,
) -> Result<(), NoMemory>
    ensures { OnOk result (names.new.items ≡ names.old.items ++ own_names (checked_of program.now).main 0 (checked_of program.now).functions) }
{
    let mut number = 0u64;
    let mut rest = program.functions.as_slice();
    'functions: while let Some((function, others)) = rest.split_first() {
        names.push(function_name(alloc, number == u64::from(program.main), function)?)?;
        number = number.checked_add(1).ok_or(AllocError)?;
        rest = others;
    }
    Ok(())
}

// Appends the names of functions that a class declares.
fn put_declared_names(
    alloc: Global,
    class: u32,
    class_name: &[u8],
    functions: &[Func],
    names: &mut Vec<Option<RowName>>,
) -> Result<(), NoMemory>
    ensures { OnOk result (names.new.items ≡ names.old.items ++ declared_names class class_name.now (map function_of functions.now)) }
{
    let mut rest = functions;
    'functions: while let Some((function, others)) = rest.split_first() {
        let member = Member {
            class,
            class_name,
            kind: function.kind,
            name: function.name.text.as_bytes(),
        };
        names.push(kept(member_name(alloc, member, function.params.as_slice())?))?;
        rest = others;
    }
    Ok(())
}

// Some of the functions is a constructor.
fn some_constructor(functions: &[Func]) -> bool
    ensures { result ≡ some_constructor (map function_of functions.now) }
{
    for function in functions {
        if matches!(function.kind, FuncKind::Constructor) {
            return true;
        }
    }
    false
}

fn unless_declared(is_declared: bool, name: Vec<u8>) -> Option<RowName>
    ensures { result ≡ unless_declared is_declared name.items }
{
    if is_declared { None } else { kept(name) }
}

fn class_name(program: &Checked, class: u32) -> &[u8]
    ensures { result.now ≡ (classes.class_at (checked_of program.now) class).name.text }
{
    match program.classes.get(class as usize) {
        Some(it) => it.name.text.as_bytes(),
        None => &[],
    }
}

// Appends the names of the functions of a class.
fn put_class_names(
    alloc: Global,
    program: &Checked,
    class: u32,
    names: &mut Vec<Option<RowName>>,
) -> Result<(), NoMemory>
    ensures { OnOk result (names.new.items ≡ names.old.items ++ class_names (checked_of program.now) class) }
{
    let name = class_name(program, class);
    let functions = methods_of(program, class);
    put_declared_names(alloc, class, name, functions, names)?;
    let built = Member {
        class,
        class_name: name,
        kind: FuncKind::Constructor,
        name,
    };
    let destroyed = Member {
        class,
        class_name: name,
        kind: FuncKind::Destructor,
        name,
    };
    names.push(unless_declared(some_constructor(functions), member_name(alloc, built, &[])?))?;
    let copies = matches!(copy_constructor(program, class), Constructor::Declared(_));
    names.push(unless_declared(copies, copy_name(alloc, class, name)?))?;
    let destroys = destructor_place(program, class).is_some();
    names.push(unless_declared(destroys, member_name(alloc, destroyed, &[])?))?;
    Ok(())
}

fn functions_names(alloc: Global, program: &Checked) -> Result<Vec<Option<RowName>>, NoMemory>
    ensures { IfOk result (λ names. names.items ≡ functions_names (checked_of program.now)) }
{
    let mut names = Vec::new(alloc);
    put_own_names(alloc, program, &mut names)?;
    let count = u32::try_from(program.classes.len()).map_err(|_| AllocError)?;
    for class in 0..count {
        put_class_names(alloc, program, class, &mut names)?;
    }
    Ok(names)
}

fn types_names(alloc: Global, classes: &[ClassDecl]) -> Result<Vec<Option<RowName>>, NoMemory>
    ensures { IfOk result (λ names. names.items ≡ kept (record_name 0 []) ∷ records_from 1 (map class_of classes.now)) }
{
    let mut names = Vec::new(alloc);
    names.push(kept(record_name(alloc, 0, &[])?))?;
    let mut number = 1u64;
    let mut rest = classes;
    'classes: while let Some((class, others)) = rest.split_first() {
        names.push(kept(record_name(alloc, number, class.name.text.as_bytes())?))?;
        number = number.checked_add(1).ok_or(AllocError)?;
        rest = others;
    }
    Ok(names)
}

fn globals_names(alloc: Global, decls: &[Decl]) -> Result<Vec<Option<RowName>>, NoMemory>
    ensures { IfOk result (λ names. names.items ≡ globals_names (map declaration_of decls.now)) }
{
    let mut names = Vec::new(alloc);
    let mut rest = decls;
    'decls: while let Some((decl, others)) = rest.split_first() {
        if let Decl::Global(name, _) = decl {
            names.push(kept(Vec::from_slice(alloc, name.text.as_bytes())?))?;
        }
        rest = others;
    }
    Ok(names)
}

/// The names that the symbols of a program have.
pub fn symbol_names(alloc: Global, program: &Checked) -> Result<SymbolNames, NoMemory>
    ensures functions { IfOk result (λ names. names.functions.items ≡ functions_names (checked_of program.now)) }
    ensures types { IfOk result (λ names. names.types.items ≡ types_names (checked_of program.now)) }
    ensures globals { IfOk result (λ names. names.globals.items ≡ globals_names (checked_of program.now).program.declarations) }
{
    Ok(SymbolNames {
        functions: functions_names(alloc, program)?,
        types: types_names(alloc, program.classes.as_slice())?,
        globals: globals_names(alloc, program.program.decls.as_slice())?,
    })
}
