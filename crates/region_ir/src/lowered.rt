// The regions of a program.
ghost use Rattle.std.specs.Prelude.{◌≡◌, ◌++◌, ◌∷◌, [], true, false, map, length, IfOk, OnOk};
ghost use Rattle.cxx_ast.specs.View.{checked_of, class_of, function_of as function_meant};
ghost use Rattle.class_layout.specs.View.{laid_out};
ghost use Rattle.meaning_forms.specs.Class.{class_at};
ghost use Rattle.region_forms.specs.LowerProgram as rules;
ghost use Rattle.region_ir.specs.Shape.{all_shaped};
ghost use Rattle.region_ir.specs.View.{function_of, regions_view};

use crate::NoMemory;
use crate::function::declared_function;
use crate::held::{beside, put};
use crate::implicit::{
    implicit_copy_function, implicit_default_function, implicit_destructor_function,
};
use crate::numbering::Numbering;
use crate::numbers::behind;
use crate::program::{RegionFunc, Regions};
use crate::source::Source;
use crate::types::type_rows;
use class_layout::Layout;
use cxx_ast::declaration::{ClassDecl, Func};
use cxx_ast::program::Checked;
use std::alloc::Global;

// A declared function, behind others.
fn put_declared(
    source: Source<'_>,
    is_member: bool,
    is_main: bool,
    class: u32,
    function: &Func,
    functions: &mut Vec<RegionFunc>,
) -> Result<(), NoMemory>
    ensures { OnOk result (map function_of functions.new.items ≡ map function_of functions.old.items ++ rules.declared_function (checked_of source.entry.numbering.now.program.now) (laid_out source.entry.layout.now) is_member is_main class (function_meant function.now) ∷ []) }
{
    let made = declared_function(source, is_member, is_main, class, function)?;
    put(made, functions)?;
    Ok(())
}

// Functions that the program declares by themselves, in order of their numbers.
fn own_functions(source: Source<'_>, declared: &[Func]) -> Result<Vec<RegionFunc>, NoMemory>
    ensures { IfOk result (λ fs. map function_of fs.items ≡ rules.own_functions (checked_of source.entry.numbering.now.program.now) (laid_out source.entry.layout.now) 0 (map function_meant declared.now)) }
{
    let main = source.numbering.program.main as usize;
    let mut functions = Vec::new(source.alloc);
    for (number, function) in declared.iter().enumerate() {
        let is_main = number == main;
        put_declared(source, false, is_main, 0, function, &mut functions)?;
    }
    Ok(functions)
}

// The functions that a class declares, behind others.
fn put_methods(
    source: Source<'_>,
    class: u32,
    methods: &[Func],
    functions: &mut Vec<RegionFunc>,
) -> Result<(), NoMemory>
    ensures { OnOk result (map function_of functions.new.items ≡ map function_of functions.old.items ++ map (rules.declared_function (checked_of source.entry.numbering.now.program.now) (laid_out source.entry.layout.now) true false class) (map function_meant methods.now)) }
{
    for method in methods {
        put_declared(source, true, false, class, method, functions)?;
    }
    Ok(())
}

// The functions of a class with a number, those that it declares and the implicit ones, behind others.
fn put_class(
    source: Source<'_>,
    number: u32,
    class: &ClassDecl,
    functions: &mut Vec<RegionFunc>,
) -> Result<(), NoMemory>
    requires { class_of class.now ≡ class_at (checked_of source.numbering.now.program.now) number }
    ensures { OnOk result (map function_of functions.new.items ≡ map function_of functions.old.items ++ rules.functions_of_class (checked_of source.entry.numbering.now.program.now) (laid_out source.entry.layout.now) number) }
{
    put_methods(source, number, class.funcs.as_slice(), functions)?;
    let made = implicit_default_function(source, number, class)?;
    put(made, functions)?;
    let made = implicit_copy_function(source, number, class)?;
    put(made, functions)?;
    let made = implicit_destructor_function(source, number, class)?;
    put(made, functions)?;
    Ok(())
}

// The functions of the program's classes, behind others.
fn put_classes(
    source: Source<'_>,
    classes: &[ClassDecl],
    functions: &mut Vec<RegionFunc>,
) -> Result<(), NoMemory>
    requires { classes.now ≡ source.numbering.now.program.now.classes.items }
    ensures { OnOk result (map function_of functions.new.items ≡ map function_of functions.old.items ++ rules.functions_of_classes (checked_of source.entry.numbering.now.program.now) (laid_out source.entry.layout.now) 0 (length classes.now)) }
{
    for (number, class) in classes.iter().enumerate() {
        put_class(source, behind(0, number)?, class, functions)?;
    }
    Ok(())
}

/// The regions of a program with a layout of its classes.
pub fn regions(alloc: Global, program: &Checked, layout: &Layout) -> Result<Regions, NoMemory>
    ensures lowered { IfOk result (λ r. regions_view r ≡ rules.regions_of (checked_of program.now) (laid_out layout.now)) }
    ensures shape { IfOk result (λ r. all_shaped (regions_view r) ≡ true) }
{
    let numbering = Numbering::new(alloc, program)?;
    let source = Source {
        alloc,
        numbering: &numbering,
        layout,
    };
    let mut functions = own_functions(source, program.functions.as_slice())?;
    put_classes(source, program.classes.as_slice(), &mut functions)?;
    let (functions, types) = beside(functions, type_rows(alloc, program))?;
    let globals = Vec::from_slice(alloc, program.globals.as_slice());
    let ((functions, types), globals) = beside((functions, types), globals)?;
    Ok(Regions {
        functions,
        types,
        globals,
        tokens: program.program.tokens,
        main: program.main,
    })
}
