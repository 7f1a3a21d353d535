// Files with sections.
ghost use Rattle.std.specs.Prelude.{◌≡◌, ◌≤◌, ◌++◌, ◌+◌, length, IfOk, OnOk};
ghost use Rattle.elf_sections.specs.Written.{gap, symbol_table, symbol_texts, section_texts, table_section, tables_behind, table_sections, with_sections};

use crate::NoMemory;
use crate::header::headed;
use crate::section::{
    Places, Section, SectionKind, places_sections, put_section_names, put_sections,
};
use crate::symbol::{Symbol, put_symbol_names, put_symbols};
use elf_image::program::{headers_of, loads};
use std::alloc::{AllocError, Global};

static ALL_KINDS: [SectionKind; 10] = [
    SectionKind::Data,
    SectionKind::TypeRecords,
    SectionKind::Code,
    SectionKind::TypeNames,
    SectionKind::ExceptionTables,
    SectionKind::Frames,
    SectionKind::FrameHeader,
    SectionKind::Symbols,
    SectionKind::SymbolNames,
    SectionKind::SectionNames,
];

// The bytes of symbol 0, which is none.
const NO_SYMBOL: usize = 24;

// The bytes of the header of section 0, which is none.
const NO_SECTION: usize = 64;

// The section headers: those of all kinds, and that of section 0.
const HEADERS: u16 = 11;

// Appends zeros from a place up to a multiple of 8.
fn put_gap(out: &mut Vec<u8>, place: u64) -> Result<(), AllocError>
    ensures { OnOk result (out.new.items ≡ out.old.items ++ gap place) }
{
    let zeros = (8 - place % 8) % 8;
    out.resize(out.len() + zeros as usize, 0)
}

// Where the bytes end that stand behind a file of so many.
fn end_of(size: u64, behind: &Vec<u8>) -> Result<u64, AllocError>
    ensures { IfOk result (λ end. end ≡ size + length behind.now.items) }
{
    size.checked_add(behind.len() as u64).ok_or(AllocError)
}

// The symbols, of which the first is none.
fn symbol_table(alloc: Global, symbols: &[Symbol]) -> Result<Vec<u8>, AllocError>
    ensures { IfOk result (λ bytes. bytes.items ≡ symbol_table symbols.now) }
{
    let mut bytes = Vec::new(alloc);
    bytes.resize(NO_SYMBOL, 0)?;
    put_symbols(&mut bytes, 1, symbols)?;
    Ok(bytes)
}

fn symbol_texts(alloc: Global, symbols: &[Symbol]) -> Result<Vec<u8>, AllocError>
    ensures { IfOk result (λ bytes. bytes.items ≡ symbol_texts symbols.now) }
{
    let mut bytes = Vec::new(alloc);
    bytes.push(0)?;
    put_symbol_names(&mut bytes, symbols)?;
    Ok(bytes)
}

fn section_texts(alloc: Global) -> Result<Vec<u8>, AllocError>
    ensures { IfOk result (λ bytes. bytes.items ≡ section_texts) }
{
    let mut bytes = Vec::new(alloc);
    bytes.push(0)?;
    put_section_names(&mut bytes, ALL_KINDS.as_slice())?;
    Ok(bytes)
}

// Appends a table to what stands behind a file of so many bytes, and gives its section.
fn put_table(
    behind: &mut Vec<u8>,
    size: u64,
    kind: SectionKind,
    table: &Vec<u8>,
) -> Result<Section, AllocError>
    ensures bytes { OnOk result (behind.new.items ≡ behind.old.items ++ table.now.items) }
    ensures section { IfOk result (λ s. s ≡ table_section kind (size + length behind.old.items) (length table.now.items)) }
{
    let offset = end_of(size, behind)?;
    behind.extend_from_slice(table.as_slice())?;
    Ok(Section {
        kind,
        address: 0,
        offset,
        size: table.len() as u64,
    })
}

// The tables behind a file of so many bytes; their sections come behind those that are there.
fn tables_behind(
    alloc: Global,
    size: u64,
    symbols: &[Symbol],
    sections: &mut Vec<Section>,
) -> Result<Vec<u8>, AllocError>
    ensures bytes { IfOk result (λ bytes. bytes.items ≡ tables_behind size symbols.now) }
    ensures sections { OnOk result (sections.new.items ≡ sections.old.items ++ table_sections size symbols.now) }
{
    let table = symbol_table(alloc, symbols)?;
    let texts = symbol_texts(alloc, symbols)?;
    let names = section_texts(alloc)?;
    let mut behind = Vec::new(alloc);
    put_gap(&mut behind, size)?;
    sections.push(put_table(&mut behind, size, SectionKind::Symbols, &table)?)?;
    sections.push(put_table(&mut behind, size, SectionKind::SymbolNames, &texts)?)?;
    sections.push(put_table(&mut behind, size, SectionKind::SectionNames, &names)?)?;
    Ok(behind)
}

/// A file whose parts have sections, with symbols. Behind the file stand the symbols, their names, those of the sections,
/// and the section headers; in the file only its header says so. The program headers and what they name stay as they are.
///
/// A section stands where the first segment with its address has it in the file. Numbers that do not fit their fields are want of memory.
#[tactic(auto, unfolding(crate::specs::Written::with_sections))]
pub fn with_sections(
    alloc: Global,
    file: &[u8],
    places: &Places,
    symbols: &[Symbol],
) -> Result<Vec<u8>, NoMemory>
    requires { 64 ≤ length file.now }
    ensures { IfOk result (λ bytes. bytes.items ≡ with_sections file.now places.now symbols.now) }
{
    let headers = headers_of(alloc, file)?;
    let loads = loads(alloc, headers.as_slice())?;
    let mut sections = places_sections(alloc, loads.as_slice(), places)?;
    let size = file.len() as u64;
    let mut behind = tables_behind(alloc, size, symbols, &mut sections)?;
    let end = end_of(size, &behind)?;
    put_gap(&mut behind, end)?;
    let place = end_of(size, &behind)?;
    behind.resize(behind.len() + NO_SECTION, 0)?;
    put_sections(&mut behind, 1, sections.as_slice())?;
    let mut bytes = headed(alloc, file, place, HEADERS)?;
    bytes.extend_from_slice(behind.as_slice())?;
    Ok(bytes)
}
