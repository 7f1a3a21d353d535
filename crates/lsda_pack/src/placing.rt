// Tables where they stand in their image.
ghost use Rattle.std.specs.Prelude.{◌≡◌, ◌+◌, ◌-◌, ◌<◌, ◌≤◌, ◌^◌, ◌++◌, List, Option, Ok, Some, map, option_map, min, IfOk, IfSome, OnOk};
ghost use Rattle.eh_bytes.specs.Memory.{memory_of, part_of, part_with};
ghost use Rattle.table_forms.specs.Lsda.{Table, lsda};
ghost use Rattle.table_forms.specs.LsdaHead.{Head, Types};
ghost use Rattle.elf_image.specs.declared.program.ProgramHeader.{ProgramHeader as Header};
ghost use Rattle.elf_image.specs.Clean.{Function, table_named};
ghost use Rattle.lsda_read.specs.WholeTable.{IsWhole};
ghost use Rattle.lsda_pack.specs.Extents.{words_for};
ghost use Rattle.lsda_pack.specs.MayPack.{IsHead, base_by, placed_as};
ghost use Rattle.lsda_pack.specs.Placed.{placed_in, placed_of};
ghost use Rattle.lsda_pack.specs.Placings.{AreFunctions, ArePlacings, HasTypes, IsPlaced, IsPlacing, placed_all, those_of};
ghost use Rattle.lsda_pack.specs.Reaches.{extent_taken};

use crate::NoMemory;
use crate::ends::table_end;
use crate::extents::words_of;
use crate::packing::packed_from;
use crate::reach::{TableTaken, Taken};
use eh_bytes::{Region64, Segment, Segments};
use elf_image::program::{ProgramHeader, load_with};
use frame_read::Fde;
use lsda_read::{Lsda, Shape};
use std::alloc::{AllocError, Global};

// Types are left out.
const OMITTED: u8 = 0xff;
// No table of a file reaches so far.
const FAR: u128 = 0x2_0000_0000_0000_0000;

/// A table where it stands: what it takes of memory and of the file, the words that its entries
/// name, and its packed bytes where it is packed.
#[derive(Drop)]
pub struct Placing {
    pub taken: TableTaken,
    pub words: Vec<Taken>,
    pub packed: Option<Vec<u8>>,
}

/// Where a table of a function stands: its first address and its place in the file, where the bytes
/// of its segment end there, and the places of its action table and of its base, if it has one, in
/// the segment.
#[derive(Clone, Copy, Drop)]
pub struct TableAt {
    pub region: Region64,
    pub first: u64,
    pub place: u128,
    pub file_end: u128,
    pub actions_at: u128,
    pub base: Option<u128>,
}

// What a table takes from its first address up to its end.
fn taken_from(first: u64, end: u128, place: u128, file_end: u128) -> TableTaken
    requires end { end < 2 ^ 70 }
    requires place { place < 2 ^ 66 }
    ensures { result ≡ record { memory = record { first = first; end = end; place = place }; file = record { first = place; end = min (place + (end - first)) file_end; place = place } } }
{
    let stop = place + end.saturating_sub(first as u128);
    TableTaken {
        memory: Taken {
            first: first as u128,
            end,
            place,
        },
        file: Taken {
            first: place,
            end: if stop < file_end { stop } else { file_end },
            place,
        },
    }
}

// The words that the entries of a table with these indices name, if it has any.
fn words_named(
    alloc: Global,
    memory: &Segments,
    segment: &Segment,
    shape: &Shape,
    base: Option<u128>,
    types: &[u64],
) -> Result<Vec<Taken>, NoMemory>
    ensures { IfOk result (λ words. (o : Option Types) → HasTypes shape.now o → option_map (λ t. t.base) o ≡ base → words.items ≡ map extent_taken (words_for (memory_of memory.now) (part_of segment.now) o types.now)) }
{
    match base {
        None => Ok(Vec::new(alloc)),
        Some(base) => words_of(alloc, memory, segment, shape.ttype, base, types),
    }
}

// The table at an address of a segment, where its form is known.
#[tactic(auto, using(lsda_read::proofs::Whole::keys_in))]
fn place_formed(
    alloc: Global,
    memory: &Segments,
    segment: &Segment,
    table: &Lsda<'_>,
    shape: &Shape,
    at: TableAt,
) -> Result<Placing, NoMemory>
    requires reach { at.actions_at < 2 ^ 65 }
    requires near { IfSome at.base (λ b. b < 2 ^ 65) }
    requires whole { IsWhole table.now }
    requires place { at.place < 2 ^ 66 }
    ensures { (h : Head) → IsHead (part_of segment.now) at.region table.now at.actions_at at.base h → HasTypes shape.now h.types → IfOk result (λ p. IsPlacing (memory_of memory.now) p (placed_as at.first at.region at.place at.file_end (part_of segment.now) shape.now h table.now)) }
{
    let bytes = segment.bytes.as_slice();
    let numbers = table.numbers(alloc)?;
    let end = segment.address as u128 + table_end(bytes, at.actions_at, at.base, table, &numbers);
    let lists = numbers.lists.as_slice();
    let packed = packed_from(alloc, bytes, table, lists, shape, at, end)?;
    let types = numbers.types.as_slice();
    let words = words_named(alloc, memory, segment, shape, at.base, types)?;
    Ok(Placing {
        taken: taken_from(at.first, end, at.place, at.file_end),
        words,
        packed,
    })
}

// Where the base lies in its segment, if there is one.
fn base_by(shape: &Shape, from: u128) -> Result<Option<u128>, NoMemory>
    ensures base { IfOk result (λ base. base ≡ base_by shape.now from) }
    ensures near { IfOk result (λ base. IfSome base (λ b. b < 2 ^ 65)) }
{
    if shape.ttype == OMITTED {
        return Ok(None);
    }
    let base = shape.base.saturating_sub(from);
    if base >= FAR {
        return Err(AllocError);
    }
    Ok(Some(base))
}

// The table at an address of a segment whose bytes of the file end there.
fn place_in(
    alloc: Global,
    memory: &Segments,
    segment: &Segment,
    address: u64,
    region: Region64,
    table: &Lsda<'_>,
    file_end: u128,
) -> Result<Option<Placing>, NoMemory>
    requires low { segment.now.address ≤ address }
    requires found { part_with (memory_of memory.now) address ≡ Some (part_of segment.now) }
    requires read { lsda (memory_of memory.now) address region ≡ Ok table.now }
    ensures { (load : Header) → load.offset + load.file_size ≡ file_end → IfOk result (λ p. IsPlaced (memory_of memory.now) p (placed_in address region table.now (Some (part_of segment.now)) (Some load))) }
{
    let Ok(shape) = Shape::read_at(memory, address, region) else {
        return Ok(None);
    };
    let from = segment.address as u128;
    let place = segment.file_at as u128 + (address - segment.address) as u128;
    let actions_at = shape.actions.saturating_sub(from);
    if actions_at >= FAR {
        return Err(AllocError);
    }
    let base = base_by(&shape, from)?;
    let at = TableAt {
        region,
        first: address,
        place,
        file_end,
        actions_at,
        base,
    };
    Ok(Some(place_formed(alloc, memory, segment, table, &shape, at)?))
}

// The table at an address, which is read.
fn place_at(
    alloc: Global,
    memory: &Segments,
    loads: &[ProgramHeader],
    address: u64,
    region: Region64,
    table: &Lsda<'_>,
) -> Result<Option<Placing>, NoMemory>
    requires { lsda (memory_of memory.now) address region ≡ Ok table.now }
    ensures { IfOk result (λ p. IsPlaced (memory_of memory.now) p (placed_of (memory_of memory.now) loads.now address region (Some table.now))) }
{
    let Some(segment) = memory.segment_with(address) else {
        return Ok(None);
    };
    let Some(load) = load_with(loads, address as u128) else {
        return Ok(None);
    };
    let file_end = load.offset as u128 + load.file_size as u128;
    place_in(alloc, memory, segment, address, region, table, file_end)
}

// The table of a function, if it names one.
fn place_of(
    alloc: Global,
    memory: &Segments,
    loads: &[ProgramHeader],
    fde: &Fde,
) -> Result<Option<Placing>, NoMemory>
    requires ends { fde.now.region.start + fde.now.region.length < 2 ^ 64 }
    requires read { (o : Option Table) × (table_named (memory_of memory.now) fde.now.lsda fde.now.region ≡ Ok o) }
    ensures { IfOk result (λ p. (o : Option Table) → table_named (memory_of memory.now) fde.now.lsda fde.now.region ≡ Ok o → IsPlaced (memory_of memory.now) p (placed_of (memory_of memory.now) loads.now fde.now.lsda fde.now.region o)) }
{
    let address = fde.lsda;
    if address == 0 {
        return Ok(None);
    }
    let table = Lsda::known_at(memory, address, fde.region);
    place_at(alloc, memory, loads, address, fde.region, &table)
}

// One more, if there is one.
fn push_placed(placings: &mut Vec<Placing>, placed: Option<Placing>) -> Result<(), NoMemory>
    ensures { OnOk result (placings.new.items ≡ placings.old.items ++ those_of placed) }
{
    if let Some(placing) = placed {
        placings.push(placing)?;
    }
    Ok(())
}

/// The tables of functions, in their order.
pub fn place_all(
    alloc: Global,
    memory: &Segments,
    loads: &[ProgramHeader],
    fdes: &[Fde],
) -> Result<Vec<Placing>, NoMemory>
    requires { (gs : List Function) × AreFunctions (memory_of memory.now) fdes.now gs }
    ensures { IfOk result (λ ps. (gs : List Function) → AreFunctions (memory_of memory.now) fdes.now gs → ArePlacings (memory_of memory.now) ps.items (placed_all (memory_of memory.now) loads.now gs)) }
{
    let mut placings = Vec::new(alloc);
    let mut rest = fdes;
    'fdes: while let Some((fde, others)) = rest.split_first() {
        let placed = place_of(alloc, memory, loads, fde)?;
        push_placed(&mut placings, placed)?;
        rest = others;
    }
    Ok(placings)
}
