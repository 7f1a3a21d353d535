// What the functions of a program are lowered with, and what stands around their bodies.
ghost use Rattle.std.specs.Prelude.{◌≡◌, map, IfOk};
ghost use Rattle.cxx_ast.specs.View.{checked_of};
ghost use Rattle.class_layout.specs.View.{laid_out};
ghost use Rattle.region_forms.specs.LowerProgram as rules;
ghost use Rattle.region_ir.specs.Given.{lowering_of};
ghost use Rattle.region_ir.specs.Variables.{type_in};
ghost use Rattle.region_ir.specs.View.{function_of, region_of};

use crate::NoMemory;
use crate::held::beside;
use crate::lowering::Lowering;
use crate::numbering::Numbering;
use crate::program::RegionFunc;
use crate::region::Region;
use crate::slots::slots_for;
use crate::variable::Variable;
use class_layout::Layout;
use cxx_ast::text::Text;
use std::alloc::Global;

/// A program with its numbers and its layout.
#[derive(Clone, Copy)]
pub struct Source<'a> {
    pub alloc: Global,
    pub numbering: &'a Numbering<'a>,
    pub layout: &'a Layout,
}

/// What the lowering of a function with these variables is given; a function of a class has its object's address in slot 0.
pub fn lowering<'a>(
    source: Source<'a>,
    is_member: bool,
    variables: &'a [Variable<'a>],
) -> Lowering<'a>
    ensures { lowering_of result ≡ rules.lowering (checked_of source.entry.numbering.now.program.now) (laid_out source.entry.layout.now) is_member (map type_in variables.entry.now) }
{
    Lowering {
        alloc: source.alloc,
        numbering: source.numbering,
        layout: source.layout,
        variables,
        first_variable: u32::from(is_member),
    }
}

/// A function with its name, its parameters, the slot of its result and its body.
pub fn with_body(
    l: &Lowering<'_>,
    is_member: bool,
    params: u32,
    name: &Text,
    result_slot: Option<u32>,
    body: Region,
) -> Result<RegionFunc, NoMemory>
    ensures { IfOk result (λ f. function_of f ≡ rules.with_body (laid_out l.now.layout.now) is_member (map type_in l.now.variables.now) params name.now result_slot (region_of body)) }
{
    let slots = slots_for(l.alloc, l.layout, is_member, l.variables, &body);
    let (body, slots) = beside(body, slots)?;
    let ((body, slots), name) = beside((body, slots), Text::copied(l.alloc, name.as_bytes()))?;
    Ok(RegionFunc {
        name,
        params,
        slots,
        result: result_slot,
        body,
    })
}
