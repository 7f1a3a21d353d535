// Functions that each class has without declaring them.
ghost use Rattle.std.specs.Prelude.{◌≡◌, [], if◌then◌else◌, map, IfOk};
ghost use Rattle.cxx_ast.specs.View.{checked_of, class_of, function_of as function_meant};
ghost use Rattle.class_layout.specs.View.{laid_out};
ghost use Rattle.meaning_forms.specs.Class.{class_at, parts_of};
ghost use Rattle.region_forms.specs.LowerProgram as rules;
ghost use Rattle.region_forms.specs.LowerStatement.{nothing_more};
ghost use Rattle.region_ir.specs.Given.{lowering_of};
ghost use Rattle.region_ir.specs.Planned.{building_of};
ghost use Rattle.region_ir.specs.View.{function_of, region_of};

use crate::NoMemory;
use crate::expression::in_order;
use crate::lowering::Lowering;
use crate::part::Plan;
use crate::parts::{Construction, Destruction, build_parts, destroy_parts};
use crate::program::RegionFunc;
use crate::region::Region;
use crate::source::{Source, lowering, with_body};
use crate::statement::Standing;
use crate::variable::Variable;
use cxx_ast::declaration::{ClassDecl, Func, FuncKind};
use scope_world::{body_of, parts_of};

// Where the body of a function without variables begins.
const OUTERMOST: Standing = Standing {
    innermost_loop: 0,
    next_variable: 0,
    depth: 1,
};

// Some of the functions is a constructor.
fn some_constructor(functions: &[Func]) -> bool
    ensures { result ≡ rules.some_constructor (map function_meant functions.now) }
{
    for function in functions {
        if matches!(function.kind, FuncKind::Constructor) {
            return true;
        }
    }
    false
}

// All parts of an object are built.
fn built(l: &Lowering<'_>, class: u32, plan: Plan<'_>) -> Result<Vec<Region>, NoMemory>
    ensures { IfOk result (λ rs. map region_of rs.items ≡ rules.build_parts (lowering_of l.now) class (building_of (lowering_of l.now) class plan.entry) 0 (parts_of (checked_of l.now.numbering.now.program.now) class) nothing_more 1) }
{
    let parts = parts_of(l.alloc, l.numbering.program, class)?;
    let work = Construction {
        class,
        plan,
        left: body_of(None),
    };
    let mut regions = Vec::new(l.alloc);
    build_parts(l, work, 0, parts.as_slice(), OUTERMOST, &mut regions)?;
    Ok(regions)
}

// All parts of an object are destroyed.
fn destroyed(l: &Lowering<'_>, class: u32) -> Result<Vec<Region>, NoMemory>
    ensures { IfOk result (λ rs. map region_of rs.items ≡ rules.destroy_parts (lowering_of l.now) class 0 (parts_of (checked_of l.now.numbering.now.program.now) class) nothing_more 1) }
{
    let parts = parts_of(l.alloc, l.numbering.program, class)?;
    let work = Destruction {
        class,
        body: body_of(None),
    };
    let mut regions = Vec::new(l.alloc);
    destroy_parts(l, work, 0, parts.as_slice(), OUTERMOST, &mut regions)?;
    Ok(regions)
}

// What an implicit default constructor does; that of a class which declares a constructor is never called.
fn default_body(l: &Lowering<'_>, number: u32, class: &ClassDecl) -> Result<Vec<Region>, NoMemory>
    ensures { IfOk result (λ rs. map region_of rs.items ≡ (if rules.some_constructor (class_of class.now).functions then [] else rules.build_parts (lowering_of l.now) number (rules.default_part (lowering_of l.now) number) 0 (parts_of (checked_of l.now.numbering.now.program.now) number) nothing_more 1)) }
{
    if some_constructor(class.funcs.as_slice()) {
        Ok(Vec::new(l.alloc))
    } else {
        built(l, number, Plan::Default)
    }
}

/// The implicit default constructor of a class with a number.
pub fn implicit_default_function(
    source: Source<'_>,
    number: u32,
    class: &ClassDecl,
) -> Result<RegionFunc, NoMemory>
    requires { class_of class.now ≡ class_at (checked_of source.numbering.now.program.now) number }
    ensures { IfOk result (λ f. function_of f ≡ rules.implicit_default_function (checked_of source.entry.numbering.now.program.now) (laid_out source.entry.layout.now) number) }
{
    let l = lowering(source, true, &[]);
    let body = default_body(&l, number, class)?;
    with_body(&l, true, 1, &class.name.text, None, in_order(body))
}

/// The implicit copy constructor of a class with a number.
pub fn implicit_copy_function(
    source: Source<'_>,
    number: u32,
    class: &ClassDecl,
) -> Result<RegionFunc, NoMemory>
    requires { class_of class.now ≡ class_at (checked_of source.numbering.now.program.now) number }
    ensures { IfOk result (λ f. function_of f ≡ rules.implicit_copy_function (checked_of source.entry.numbering.now.program.now) (laid_out source.entry.layout.now) number) }
{
    let variables = [Variable::ObjectRef(true, &class.name)];
    let l = lowering(source, true, variables.as_slice());
    let body = built(&l, number, Plan::Copy)?;
    with_body(&l, true, 2, &class.name.text, None, in_order(body))
}

/// The implicit destructor of a class with a number.
pub fn implicit_destructor_function(
    source: Source<'_>,
    number: u32,
    class: &ClassDecl,
) -> Result<RegionFunc, NoMemory>
    requires { class_of class.now ≡ class_at (checked_of source.numbering.now.program.now) number }
    ensures { IfOk result (λ f. function_of f ≡ rules.implicit_destructor_function (checked_of source.entry.numbering.now.program.now) (laid_out source.entry.layout.now) number) }
{
    let l = lowering(source, true, &[]);
    let body = destroyed(&l, number)?;
    with_body(&l, true, 1, &class.name.text, None, in_order(body))
}
