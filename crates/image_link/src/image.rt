// The image of a unit.
ghost use Rattle.std.specs.Prelude.{◌≡◌, ◌++◌, ◌+◌, ◌-◌, ◌*◌, ◌<◌, ◌≤◌, ◌^◌, flat_map, length, map, true, IfOk, OnOk};
ghost use Rattle.std.specs.Int.{w32, to_le_bytes};
ghost use Rattle.eh_bytes.specs.Listed.{listed_unit, listed_function};
ghost use Rattle.machine_forms.specs.Emitted.{emitted_stubs};
ghost use Rattle.elf_image.specs.Stands.{contents_of, WritesImage};
ghost use Rattle.elf_image.specs.Behind.{StandBehind};
ghost use Rattle.image_forms.specs.Linked.{linked, contents_for};
ghost use Rattle.image_forms.specs.Linkable.{IsLinkable};
ghost use Rattle.image_forms.specs.Symbols.{span, places_for};
ghost use Rattle.image_link.specs.Standing.{AreConstants, ListsStand};
ghost use Rattle.image_link.specs.Laid.{IsLaid};
ghost use Rattle.image_link.specs.Runs.{RunsUnit};

use crate::NoMemory;
use crate::frames::put_frames;
use crate::laid::{count, layout_of};
use crate::layout::Layout;
use crate::memory::{Contents, segments};
use crate::records::{globals_bytes, put_names, records_bytes};
use crate::tables::{Ground, fill, put_tables};
use eh_bytes::{Emitted, RuntimeRecord};
use elf_image::{ImageParts, write_elf};
use elf_sections::{Places, Span};
use rt_stubs::stubs;
use std::alloc::{AllocError, Global};

// The bytes from the type record of std::bad_exception to the end of the records.
const BAD_EXCEPTION: u64 = 48;

fn put_words(out: &mut Vec<u8>, words: &[u32]) -> Result<(), NoMemory>
    ensures { OnOk result (out.new.items ≡ out.old.items ++ flat_map (to_le_bytes w32) words.now) }
{
    let mut rest = words;
    'words: while let Some((word, others)) = rest.split_first() {
        out.extend_from_slice(word.to_le_bytes().as_slice())?;
        rest = others;
    }
    Ok(())
}

fn code_bytes(alloc: Global, stubs: &Emitted, unit: &Emitted) -> Result<Vec<u8>, NoMemory>
    ensures { IfOk result (λ bytes. bytes.items ≡ flat_map (to_le_bytes w32) (stubs.now.code.items ++ unit.now.code.items)) }
{
    let mut bytes = Vec::new(alloc);
    put_words(&mut bytes, stubs.code.as_slice())?;
    put_words(&mut bytes, unit.code.as_slice())?;
    Ok(bytes)
}

// Names, tables, frames and their header, and where tables, frames and header stand.
#[derive(Drop)]
struct Constants {
    bytes: Vec<u8>,
    tables: u64,
    frames: u64,
    header: u64,
}

// The address of what is put behind bytes, of which the first stands at an address.
fn behind(base: u64, bytes: &Vec<u8>) -> Result<u64, NoMemory>
    ensures { IfOk result (λ address. address ≡ base + length bytes.now.items) }
{
    base.checked_add(bytes.len() as u64).ok_or(AllocError)
}

fn constants_of(
    alloc: Global,
    layout: &Layout,
    stubs: &Emitted,
    unit: &Emitted,
) -> Result<Constants, NoMemory>
    requires laid { IsLaid (listed_unit unit.now) layout.now }
    requires low { layout.now.names < 2 ^ 30 }
    requires stubs { listed_unit stubs.now ≡ emitted_stubs }
    ensures { IfOk result (λ c. AreConstants (listed_unit unit.now) c.tables c.frames c.header c.bytes.items) }
{
    let ground = Ground {
        base: layout.names,
        end: layout.code,
    };
    let mut bytes = Vec::new(alloc);
    put_names(&mut bytes, unit.types.as_slice())?;
    let size = bytes.len();
    fill(&mut bytes, size)?;
    let tables = behind(layout.names, &bytes)?;
    let mut fdes = Vec::new(alloc);
    put_tables(
        alloc,
        ground,
        layout.code,
        stubs.functions.as_slice(),
        &mut bytes,
        &mut fdes,
    )?;
    put_tables(
        alloc,
        ground,
        layout.unit,
        unit.functions.as_slice(),
        &mut bytes,
        &mut fdes,
    )?;
    let frames = behind(layout.names, &bytes)?;
    let header = put_frames(alloc, layout.names, fdes, &mut bytes)?;
    Ok(Constants {
        bytes,
        tables,
        frames,
        header,
    })
}

// From one address up to another.
fn between(start: u64, end: u64) -> Span
    ensures { result ≡ span start (end - start) }
{
    Span {
        address: start,
        size: end.saturating_sub(start),
    }
}

// The parts of an image that have sections.
fn places_of(layout: &Layout, unit: &Emitted, constants: &Constants) -> Result<Places, NoMemory>
    requires laid { IsLaid (listed_unit unit.now) layout.now }
    requires constants { AreConstants (listed_unit unit.now) constants.now.tables constants.now.frames constants.now.header constants.now.bytes.items }
    ensures { IfOk result (λ places. places ≡ places_for (listed_unit unit.now)) }
{
    let code_end = layout
        .unit
        .checked_add(4 * u64::from(count(unit.code.len())?))
        .ok_or(AllocError)?;
    let end = behind(layout.names, &constants.bytes)?;
    Ok(Places {
        globals: between(layout.globals, layout.records),
        type_records: between(layout.records, layout.code),
        code: between(layout.code, code_end),
        type_names: between(layout.names, constants.tables),
        exception_tables: between(constants.tables, constants.frames),
        frames: between(constants.frames, constants.header),
        frame_header: between(constants.header, end),
    })
}

// What an image is to hold, and where its parts stand, with the runtime's own functions.
#[derive(Drop)]
struct Placed {
    parts: ImageParts,
    places: Places,
    layout: Layout,
    own: Emitted,
}

fn parts_of(alloc: Global, unit: &Emitted) -> Result<Placed, NoMemory>
    ensures contents { IfOk result (λ placed. contents_of placed.parts ≡ contents_for (listed_unit unit.now)) }
    ensures lists { IsLinkable (listed_unit unit.now) → OnOk result (ListsStand (listed_unit unit.now)) }
    ensures places { IfOk result (λ placed. placed.places ≡ places_for (listed_unit unit.now)) }
    ensures laid { IfOk result (λ placed. IsLaid (listed_unit unit.now) placed.layout) }
    ensures low { IfOk result (λ placed. placed.layout.names < 2 ^ 30) }
    ensures own { IfOk result (λ placed. listed_unit placed.own ≡ emitted_stubs) }
{
    let layout = layout_of(unit)?;
    let placed = stubs(alloc, layout.code)?;
    let constants = constants_of(alloc, &layout, &placed.emitted, unit)?;
    let places = places_of(&layout, unit, &constants)?;
    let header = constants.header;
    let contents = Contents {
        globals: globals_bytes(alloc, unit.globals.as_slice())?,
        records: records_bytes(alloc, layout.code, layout.names, unit.types.as_slice())?,
        code: code_bytes(alloc, &placed.emitted, unit)?,
        constants: constants.bytes,
    };
    let parts = ImageParts {
        entry: placed.start,
        segments: segments(alloc, &layout, contents)?,
        frame_header: header,
        runtime: RuntimeRecord {
            terminate: placed.terminate,
            bad_exception: layout.code - BAD_EXCEPTION,
        },
    };
    Ok(Placed {
        parts,
        places,
        layout,
        own: placed.emitted,
    })
}

/// The file of an image of a unit, and where its parts stand, with the runtime's own functions.
#[derive(Drop)]
pub struct Linked {
    pub file: Vec<u8>,
    pub places: Places,
    pub layout: Layout,
    pub own: Emitted,
}

/// The image of a unit as `link` gives it, and where its parts stand.
pub fn link_placed(alloc: Global, emitted: &Emitted) -> Result<Linked, NoMemory>
    ensures bytes { IfOk result (λ image. image.file.items ≡ linked (listed_unit emitted.now)) }
    ensures stands { IsLinkable (listed_unit emitted.now) → OnOk result (WritesImage (contents_for (listed_unit emitted.now)) true (linked (listed_unit emitted.now))) }
    ensures lists { IsLinkable (listed_unit emitted.now) → OnOk result (ListsStand (listed_unit emitted.now)) }
    ensures runs { IsLinkable (listed_unit emitted.now) → OnOk result (RunsUnit (listed_unit emitted.now) (linked (listed_unit emitted.now))) }
    ensures behind { IsLinkable (listed_unit emitted.now) → OnOk result (StandBehind (linked (listed_unit emitted.now))) }
    ensures places { IfOk result (λ image. image.places ≡ places_for (listed_unit emitted.now)) }
    ensures laid { IfOk result (λ image. IsLaid (listed_unit emitted.now) image.layout) }
    ensures low { IfOk result (λ image. image.layout.names < 2 ^ 30) }
    ensures own { IfOk result (λ image. listed_unit image.own ≡ emitted_stubs) }
{
    let placed = parts_of(alloc, emitted)?;
    let file = write_elf(alloc, &placed.parts)?;
    let Placed {
        places,
        layout,
        own,
        ..
    } = placed;
    Ok(Linked {
        file,
        places,
        layout,
        own,
    })
}

/// The image of a unit, as an ELF file: globals, type records, the runtime's own functions with the
/// unit's code, and names, exception tables, frames and their header, with the record for the runtime.
///
/// The same unit gives the same bytes. Where code would stand at or above 2^30, memory is wanting. Of a
/// unit that is within the bounds of its source the file is that of an image to run: `read_elf` refuses
/// nothing of it, and reads these parts; and in each memory that has them the tables, the frames and
/// their header stand for the lists that `emitted` has. So the image is clean and may run, with the
/// frame and the table of each function.
pub fn link(alloc: Global, emitted: &Emitted) -> Result<Vec<u8>, NoMemory>
    ensures bytes { IfOk result (λ file. file.items ≡ linked (listed_unit emitted.now)) }
    ensures stands { IsLinkable (listed_unit emitted.now) → OnOk result (WritesImage (contents_for (listed_unit emitted.now)) true (linked (listed_unit emitted.now))) }
    ensures lists { IsLinkable (listed_unit emitted.now) → OnOk result (ListsStand (listed_unit emitted.now)) }
    ensures runs { IsLinkable (listed_unit emitted.now) → IfOk result (λ file. RunsUnit (listed_unit emitted.now) file.items) }
    ensures few { IsLinkable (listed_unit emitted.now) → IfOk result (λ file. length file.items ≤ 768 * emitted.now.tokens + 131072) }
{
    Ok(link_placed(alloc, emitted)?.file)
}
