// The machine code of a unit.
ghost use Rattle.std.specs.Prelude.{◌≡◌, ◌+◌, ◌++◌, List, IfOk, OnOk, map};
ghost use Rattle.eh_bytes.specs.Listed.{listed_function, listed_unit};
ghost use Rattle.linear_forms.specs.Linear.{UnitCode as PlainUnit};
ghost use Rattle.landing_pads.specs.View.{code_of, unit_view};
ghost use Rattle.region_ir.specs.View.{row_of};
ghost use Rattle.machine_forms.specs.Emitted as rules;
ghost use Rattle.machine_forms.specs.Routine.{Routine, all_words, listed_routine, listed_routines, routine_words, routines_code};
ghost use Rattle.rv64_emit.specs.Body.{AllStandFor, StandsFor};
ghost use Rattle.rv64_emit.specs.Places.{HasTargets};

use crate::NoMemory;
use crate::body::{Body, body_of};
use crate::moves::function_moves;
use crate::numbers::behind;
use crate::places::{STUB_WORDS, Targets};
use crate::shape::Frame;
use crate::starts::Starts;
use crate::table::table_of;
use crate::words::{put_body, put_main_jump};
use eh_bytes::{Emitted, EmittedFunc, RowName, TypeRow};
use landing_pads::unit::{FuncCode, UnitCode};
use std::alloc::Global;

// The functions of a unit as their tables and frames have them, and their code.
#[derive(Drop)]
struct Laid {
    functions: Vec<EmittedFunc>,
    bodies: Vec<Body>,
    end: u32,
}

// A function that begins at a word, with its table and its frame.
fn emitted_function(
    alloc: Global,
    function: &FuncCode,
    frame: &Frame<'_>,
    first: u32,
    body: &Body,
) -> Result<EmittedFunc, NoMemory>
    requires frame { frame.now ≡ rules.shape_of (code_of function.now) }
    requires body { StandsFor body.now (rules.function_routine (code_of function.now)) }
    ensures { IfOk result (λ f. listed_function f ≡ listed_routine first (rules.function_routine (code_of function.now))) }
{
    Ok(EmittedFunc {
        name: RowName::new(Vec::from_slice(alloc, function.name.as_bytes())?),
        first,
        words: body.starts.end,
        table: table_of(alloc, function, &body.starts)?,
        moves: function_moves(alloc, frame, function.params)?,
    })
}

// The functions one behind the other, from the third word on.
fn lay_out(alloc: Global, functions: &[FuncCode]) -> Result<Laid, NoMemory>
    ensures functions { IfOk result (λ l. map listed_function l.functions.items ≡ listed_routines 2 (map rules.function_routine (map code_of functions.now))) }
    ensures bodies { IfOk result (λ l. AllStandFor l.bodies.items (map rules.function_routine (map code_of functions.now))) }
    ensures end { IfOk result (λ l. l.end ≡ 2 + all_words (map rules.function_routine (map code_of functions.now))) }
{
    let mut listed = Vec::new(alloc);
    let mut bodies = Vec::new(alloc);
    let mut end = 2;
    for function in functions {
        let frame = Frame::new(alloc, function)?;
        let body = body_of(alloc, &frame, function)?;
        listed.push(emitted_function(alloc, function, &frame, end, &body)?)?;
        end = behind(end, body.starts.end as usize)?;
        bodies.push(body)?;
    }
    Ok(Laid {
        functions: listed,
        bodies,
        end,
    })
}

// The words of functions one behind the other, from a word on, behind other words.
fn put_bodies(
    targets: &Targets<'_>,
    bodies: &[Body],
    first: u32,
    words: &mut Vec<u32>,
) -> Result<(), NoMemory>
    ensures { (u : PlainUnit) (rs : List Routine) → HasTargets targets.now u → AllStandFor bodies.now rs → OnOk result (words.new.items ≡ words.old.items ++ routines_code (rules.target_byte u) first rs) }
{
    let mut here = first;
    for body in bodies {
        put_body(targets, body, here, words)?;
        here = behind(here, body.starts.end as usize)?;
    }
    Ok(())
}

// The words of a unit.
fn unit_words(
    alloc: Global,
    targets: &Targets<'_>,
    bodies: &[Body],
    main: u32,
) -> Result<Vec<u32>, NoMemory>
    ensures { (u : PlainUnit) → HasTargets targets.now u → AllStandFor bodies.now (rules.unit_routines u) → u.main ≡ main → IfOk result (λ words. words.items ≡ rules.unit_words u) }
{
    let mut words = Vec::new(alloc);
    put_main_jump(targets, main, &mut words)?;
    put_bodies(targets, bodies, STUB_WORDS + 2, &mut words)?;
    Ok(words)
}

// A copy of a type's row.
fn row_copied(alloc: Global, row: &TypeRow) -> Result<TypeRow, NoMemory>
    ensures { IfOk result (λ r. r ≡ rules.listed_type (row_of row.now)) }
{
    Ok(TypeRow {
        kind: row.kind,
        name: RowName::new(Vec::from_slice(alloc, row.name.as_bytes())?),
        base: row.base,
    })
}

// Copies of the rows of types.
fn rows_copied(alloc: Global, rows: &[TypeRow]) -> Result<Vec<TypeRow>, NoMemory>
    ensures { IfOk result (λ copied. copied.items ≡ map rules.listed_type (map row_of rows.now)) }
{
    let mut copied = Vec::new(alloc);
    for row in rows {
        copied.push(row_copied(alloc, row)?)?;
    }
    Ok(copied)
}

/// The machine code of a program's linear code, which can stand at any address that is a multiple of 8, with its tables and frames.
///
/// It is to stand behind the runtime's own functions, and below these the records of its types and its globals. Want of memory is also the
/// answer where a number, as that of a word, is none of 32 bits, and where a jump inside a value would go over 2^19 words or more.
pub fn emit(alloc: Global, unit: &UnitCode) -> Result<Emitted, NoMemory>
    ensures { IfOk result (λ e. listed_unit e ≡ rules.emitted_of (unit_view unit.now)) }
{
    let laid = lay_out(alloc, unit.functions.as_slice())?;
    let targets = Targets {
        functions: laid.functions.as_slice(),
        end: laid.end,
        types: behind(0, unit.types.len())?,
    };
    let code = unit_words(alloc, &targets, laid.bodies.as_slice(), unit.main)?;
    Ok(Emitted {
        code,
        functions: laid.functions,
        types: rows_copied(alloc, unit.types.as_slice())?,
        globals: Vec::from_slice(alloc, unit.globals.as_slice())?,
        tokens: unit.tokens,
    })
}
