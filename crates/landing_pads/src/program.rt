// The linear code of a program.
ghost use Rattle.std.specs.Prelude.{◌≡◌, ◌++◌, ◌∷◌, [], map, IfOk, OnOk};
ghost use Rattle.linear_forms.specs.Unit as rules;
ghost use Rattle.region_ir.specs.View.{function_of, regions_view, row_of};
ghost use Rattle.landing_pads.specs.View.{code_of, unit_view};

use crate::NoMemory;
use crate::function::function_code;
use crate::unit::{FuncCode, UnitCode};
use eh_bytes::{RowName, TypeRow};
use region_ir::held::{beside, put};
use region_ir::program::{RegionFunc, Regions};
use std::alloc::Global;

// The code of a function, behind others.
fn put_code(alloc: Global, function: &RegionFunc, codes: &mut Vec<FuncCode>) -> Result<(), NoMemory>
    ensures { OnOk result (map code_of codes.new.items ≡ map code_of codes.old.items ++ rules.function_code (function_of function.now) ∷ []) }
{
    let code = function_code(alloc, function)?;
    put(code, codes)?;
    Ok(())
}

// The codes of functions, in their order.
fn function_codes(alloc: Global, functions: &[RegionFunc]) -> Result<Vec<FuncCode>, NoMemory>
    ensures { IfOk result (λ codes. map code_of codes.items ≡ map rules.function_code (map function_of functions.now)) }
{
    let mut codes = Vec::new(alloc);
    for function in functions {
        put_code(alloc, function, &mut codes)?;
    }
    Ok(codes)
}

// A copy of a type's row.
fn row_copied(alloc: Global, row: &TypeRow) -> Result<TypeRow, NoMemory>
    ensures { IfOk result (λ r. row_of r ≡ row_of row.now) }
{
    Ok(TypeRow {
        kind: row.kind,
        name: RowName::new(Vec::from_slice(alloc, row.name.as_bytes())?),
        base: row.base,
    })
}

// Copies of the rows of types.
fn rows_copied(alloc: Global, rows: &[TypeRow]) -> Result<Vec<TypeRow>, NoMemory>
    ensures { IfOk result (λ copied. map row_of copied.items ≡ map row_of rows.now) }
{
    let mut copied = Vec::new(alloc);
    for row in rows {
        copied.push(row_copied(alloc, row)?)?;
    }
    Ok(copied)
}

/// The linear code of a program of regions.
pub fn pads(alloc: Global, regions: &Regions) -> Result<UnitCode, NoMemory>
    ensures { IfOk result (λ u. unit_view u ≡ rules.unit_of (regions_view regions.now)) }
{
    let functions = function_codes(alloc, regions.functions.as_slice())?;
    let types = rows_copied(alloc, regions.types.as_slice());
    let (functions, types) = beside(functions, types)?;
    let globals = Vec::from_slice(alloc, regions.globals.as_slice());
    let ((functions, types), globals) = beside((functions, types), globals)?;
    Ok(UnitCode {
        functions,
        types,
        globals,
        tokens: regions.tokens,
        main: regions.main,
    })
}
