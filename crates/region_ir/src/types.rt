// The rows of a program's types.
ghost use Rattle.std.specs.Prelude.{◌≡◌, map, IfOk};
ghost use Rattle.cxx_ast.specs.View.{checked_of, class_of};
ghost use Rattle.region_forms.specs.Numbering as rules;
ghost use Rattle.region_ir.specs.View.{row_of};

use crate::NoMemory;
use crate::numbering::type_number;
use cxx_ast::declaration::ClassDecl;
use cxx_ast::name::Name;
use cxx_ast::program::Checked;
use eh_bytes::{RowName, TypeRow};
use scope_world::{ObjectType, class_named};
use std::alloc::Global;

// Kinds of types: int, a class, and `std::bad_exception`.
const INT: u32 = 1;

const CLASS: u32 = 2;

const BAD_EXCEPTION: u32 = 3;

// The number of a base's type.
fn base_number(base: &Option<Name>) -> Result<Option<u32>, NoMemory>
    ensures { IfOk result (λ n. n ≡ rules.base_number base.now) }
{
    match base {
        None => Ok(None),
        Some(base) => Ok(Some(type_number(ObjectType::Class(class_named(base)))?)),
    }
}

// The row of int.
fn int_row(alloc: Global) -> Result<TypeRow, NoMemory>
    ensures { IfOk result (λ r. row_of r ≡ rules.int_row) }
{
    Ok(TypeRow {
        kind: INT,
        name: RowName::new(Vec::from_slice(alloc, b"int".as_slice())?),
        base: None,
    })
}

// The row of a class.
fn class_row(alloc: Global, kind: u32, class: &ClassDecl) -> Result<TypeRow, NoMemory>
    ensures { IfOk result (λ r. row_of r ≡ rules.class_row kind (class_of class.now)) }
{
    Ok(TypeRow {
        kind,
        name: RowName::new(Vec::from_slice(alloc, class.name.text.as_bytes())?),
        base: base_number(&class.base)?,
    })
}

/// The rows of a program's types, by number: int, then the classes, of which the first is `std::bad_exception`.
pub fn type_rows(alloc: Global, program: &Checked) -> Result<Vec<TypeRow>, NoMemory>
    ensures { IfOk result (λ rows. map row_of rows.items ≡ rules.type_rows (checked_of program.now)) }
{
    let mut rows = Vec::new(alloc);
    rows.push(int_row(alloc)?)?;
    if let Some((first, others)) = program.classes.as_slice().split_first() {
        rows.push(class_row(alloc, BAD_EXCEPTION, first)?)?;
        for class in others {
            rows.push(class_row(alloc, CLASS, class)?)?;
        }
    }
    Ok(rows)
}
