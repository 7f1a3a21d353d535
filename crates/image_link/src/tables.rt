// Exception tables at their addresses, and the frames that name them.
ghost use Rattle.std.specs.Prelude.{◌≡◌, ◌++◌, ◌+◌, ◌*◌, ◌%◌, ◌-◌, ◌<◌, ◌^◌, length, map, replicate, IfOk, OnOk};
ghost use Rattle.eh_bytes.specs.Listed.{listed_table, listed_frame, listed_function};
ghost use Rattle.image_link.specs.Standing.{TableWritten, TablesWritten};
ghost use Rattle.image_forms.specs.Placed.{type_at, placed_at, placed_from};
ghost use Rattle.image_forms.specs.Tables.{linked_table, filled, placed_table, tables_bytes, placed_moves, linked_frame, linked_frames};

use crate::NoMemory;
use eh_bytes::{EmittedFunc, FrameMove, ListFde, LsdaList, Region64};
use eh_write::write_lsda;
use std::alloc::{AllocError, Global};

// The address that a table has for a type, where the records end at an address.
fn type_at(end: u64, ty: u64) -> u64
    ensures { result ≡ type_at end ty }
{
    if ty == 0 {
        0
    } else {
        end.saturating_sub(ty.saturating_mul(24))
    }
}

fn types_at(alloc: Global, end: u64, types: &[u64]) -> Result<Vec<u64>, NoMemory>
    ensures { IfOk result (λ addresses. addresses.items ≡ map (type_at end) types.now) }
{
    let mut addresses = Vec::new(alloc);
    let mut rest = types;
    'types: while let Some((ty, others)) = rest.split_first() {
        addresses.push(type_at(end, *ty))?;
        rest = others;
    }
    Ok(addresses)
}

fn chains_copied(alloc: Global, chains: &[Vec<i64>]) -> Result<Vec<Vec<i64>>, NoMemory>
    ensures { IfOk result (λ copies. map (λ c. c.items) copies.items ≡ map (λ c. c.items) chains.now) }
{
    let mut copies = Vec::new(alloc);
    let mut rest = chains;
    'chains: while let Some((chain, others)) = rest.split_first() {
        copies.push(chain.as_slice().to_vec(alloc)?)?;
        rest = others;
    }
    Ok(copies)
}

fn lists_copied(alloc: Global, lists: &[Vec<u64>]) -> Result<Vec<Vec<u64>>, NoMemory>
    ensures { IfOk result (λ copies. map (λ l. l.items) copies.items ≡ map (λ l. l.items) lists.now) }
{
    let mut copies = Vec::new(alloc);
    let mut rest = lists;
    'lists: while let Some((list, others)) = rest.split_first() {
        copies.push(list.as_slice().to_vec(alloc)?)?;
        rest = others;
    }
    Ok(copies)
}

// A table with the addresses of records in place of types.
fn linked_table(alloc: Global, end: u64, table: &LsdaList) -> Result<LsdaList, NoMemory>
    ensures { IfOk result (λ t. listed_table t ≡ linked_table end (listed_table table.now)) }
{
    Ok(LsdaList {
        sites: table.sites.as_slice().to_vec(alloc)?,
        chains: chains_copied(alloc, table.chains.as_slice())?,
        types: types_at(alloc, end, table.types.as_slice())?,
        lists: lists_copied(alloc, table.lists.as_slice())?,
    })
}

/// Puts zeros behind bytes that are to take a multiple of 4.
pub fn fill(out: &mut Vec<u8>, size: usize) -> Result<(), NoMemory>
    ensures { OnOk result (out.new.items ≡ out.old.items ++ replicate ((4 - size % 4) % 4) 0) }
{
    match size % 4 {
        0 => Ok(()),
        1 => out.extend_from_slice(&[0, 0, 0]),
        2 => out.extend_from_slice(&[0, 0]),
        _ => out.extend_from_slice(&[0]),
    }
}

// The changes of a frame, from its function's address on.
fn placed_moves(
    alloc: Global,
    address: u64,
    moves: &[FrameMove],
) -> Result<Vec<FrameMove>, NoMemory>
    ensures { IfOk result (λ placed. placed.items ≡ placed_moves address moves.now) }
{
    let mut placed = Vec::new(alloc);
    let mut rest = moves;
    'moves: while let Some((change, others)) = rest.split_first() {
        placed.push(FrameMove {
            location: address.checked_add(change.location).ok_or(AllocError)?,
            change: change.change,
        })?;
        rest = others;
    }
    Ok(placed)
}

/// Where an image's tables are put: the address of their first byte, and that at which the records end.
#[derive(Clone, Copy)]
pub struct Ground {
    pub base: u64,
    pub end: u64,
}

// Puts the table of a function whose unit's code begins at an address, and gives its frame.
fn put_table(
    alloc: Global,
    ground: Ground,
    code: u64,
    function: &EmittedFunc,
    out: &mut Vec<u8>,
) -> Result<ListFde, NoMemory>
    requires { code < 2 ^ 40 }
    ensures bytes { OnOk result (out.new.items ≡
        out.old.items ++ placed_table ground.end (ground.base + length out.old.items) (placed_at code (listed_function function.now))) }
    ensures frame { IfOk result (λ fde. listed_frame fde ≡
        linked_frame (ground.base + length out.old.items) (placed_at code (listed_function function.now))) }
    ensures stands { OnOk result (TableWritten (linked_table ground.end (listed_table function.now.table)) (ground.base + length out.old.items)) }
{
    let start = code + 4 * u64::from(function.first);
    let before = out.len();
    let lsda = ground.base.checked_add(before as u64).ok_or(AllocError)?;
    let moves = placed_moves(alloc, start, function.moves.as_slice())?;
    let table = linked_table(alloc, ground.end, &function.table)?;
    write_lsda(alloc, &table, lsda, out)?;
    let size = out.len() - before;
    fill(out, size)?;
    Ok(ListFde {
        region: Region64 {
            start,
            length: 4 * u64::from(function.words),
        },
        lsda,
        moves,
    })
}

/// Puts the tables of functions whose unit's code begins at an address, and their frames behind others.
pub fn put_tables(
    alloc: Global,
    ground: Ground,
    code: u64,
    functions: &[EmittedFunc],
    out: &mut Vec<u8>,
    fdes: &mut Vec<ListFde>,
) -> Result<(), NoMemory>
    requires { code < 2 ^ 40 }
    ensures bytes { OnOk result (out.new.items ≡
        out.old.items ++ tables_bytes ground.end (ground.base + length out.old.items) (placed_from code (map listed_function functions.now))) }
    ensures frames { OnOk result (map listed_frame fdes.new.items ≡
        map listed_frame fdes.old.items ++
        linked_frames ground.end (ground.base + length out.old.items) (placed_from code (map listed_function functions.now))) }
    ensures stand { OnOk result (TablesWritten ground.end (ground.base + length out.old.items) (placed_from code (map listed_function functions.now))) }
{
    let mut rest = functions;
    'functions: while let Some((function, others)) = rest.split_first() {
        let fde = put_table(alloc, ground, code, function, out)?;
        fdes.push(fde)?;
        rest = others;
    }
    Ok(())
}
