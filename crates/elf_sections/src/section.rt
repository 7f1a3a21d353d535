// Sections and their headers.
ghost use Rattle.std.specs.Prelude.{◌≡◌, ◌≤◌, ◌++◌, length, OnOk, IfOk};
ghost use Rattle.elf_sections.specs.Section.{section_text, section_number, section_type, section_flags, section_link, section_info, alignment, entry_size, halves, section_bytes, headers_from, section_names, places_sections, section_of, offset_in};

use eh_bytes::u32_bytes;
use elf_image::program::{ProgramHeader, load_with};
use elf_image::put_words;
use std::alloc::{AllocError, Global};

/// What a section holds.
#[derive(Clone, Copy, Debug, PartialEq, Eq)]
pub enum SectionKind {
    /// The globals.
    Data,
    /// The records of types.
    TypeRecords,
    /// The runtime's own functions and those of the program.
    Code,
    /// The names of types.
    TypeNames,
    /// The exception tables.
    ExceptionTables,
    /// The frames.
    Frames,
    /// The frames' header.
    FrameHeader,
    /// The symbols.
    Symbols,
    /// The names of symbols.
    SymbolNames,
    /// The names of sections.
    SectionNames,
}

impl SectionKind {
    /// The section's name.
    pub fn text(self) -> &'static [u8]
        ensures text { result.now ≡ section_text self }
        ensures short { length result.now ≤ 17 }
    {
        match self {
            SectionKind::Data => b".data".as_slice(),
            SectionKind::TypeRecords => b".rodata".as_slice(),
            SectionKind::Code => b".text".as_slice(),
            SectionKind::TypeNames => b".rodata.names".as_slice(),
            SectionKind::ExceptionTables => b".gcc_except_table".as_slice(),
            SectionKind::Frames => b".eh_frame".as_slice(),
            SectionKind::FrameHeader => b".eh_frame_hdr".as_slice(),
            SectionKind::Symbols => b".symtab".as_slice(),
            SectionKind::SymbolNames => b".strtab".as_slice(),
            SectionKind::SectionNames => b".shstrtab".as_slice(),
        }
    }

    /// The section's number: the first has number 1, as section 0 is none.
    pub fn number(self) -> u16
        ensures { result ≡ section_number self }
    {
        match self {
            SectionKind::Data => 1,
            SectionKind::TypeRecords => 2,
            SectionKind::Code => 3,
            SectionKind::TypeNames => 4,
            SectionKind::ExceptionTables => 5,
            SectionKind::Frames => 6,
            SectionKind::FrameHeader => 7,
            SectionKind::Symbols => 8,
            SectionKind::SymbolNames => 9,
            SectionKind::SectionNames => 10,
        }
    }

    // SHT_PROGBITS, SHT_SYMTAB or SHT_STRTAB.
    fn sh_type(self) -> u32
        ensures { result ≡ section_type self }
    {
        match self {
            SectionKind::Symbols => 2,
            SectionKind::SymbolNames | SectionKind::SectionNames => 3,
            _ => 1,
        }
    }

    // SHF_WRITE, SHF_ALLOC and SHF_EXECINSTR; what no segment has, has none.
    fn flags(self) -> u64
        ensures { result ≡ section_flags self }
    {
        match self {
            SectionKind::Data => 3,
            SectionKind::Code => 6,
            SectionKind::Symbols | SectionKind::SymbolNames | SectionKind::SectionNames => 0,
            _ => 2,
        }
    }

    // Symbols have their names in another section.
    fn link(self) -> u32
        ensures { result ≡ section_link self }
    {
        match self {
            SectionKind::Symbols => 9,
            _ => 0,
        }
    }

    // Behind symbol 0 all symbols are global.
    fn info(self) -> u32
        ensures { result ≡ section_info self }
    {
        match self {
            SectionKind::Symbols => 1,
            _ => 0,
        }
    }

    fn alignment(self) -> u64
        ensures { result ≡ alignment self }
    {
        match self {
            SectionKind::TypeRecords | SectionKind::Symbols => 8,
            SectionKind::TypeNames | SectionKind::SymbolNames | SectionKind::SectionNames => 1,
            _ => 4,
        }
    }

    fn entry_size(self) -> u64
        ensures { result ≡ entry_size self }
    {
        match self {
            SectionKind::Symbols => 24,
            _ => 0,
        }
    }
}

/// A section: where it stands in memory, or 0, where in the file, and how many bytes it has.
#[derive(Clone, Copy, Debug)]
pub struct Section {
    pub kind: SectionKind,
    pub address: u64,
    pub offset: u64,
    pub size: u64,
}

/// Where a part of an image stands in memory, and how many bytes it has.
#[derive(Clone, Copy, Debug)]
pub struct Span {
    pub address: u64,
    pub size: u64,
}

/// The parts of an image's memory that have sections.
#[derive(Clone, Copy, Debug)]
pub struct Places {
    pub globals: Span,
    pub type_records: Span,
    pub code: Span,
    pub type_names: Span,
    pub exception_tables: Span,
    pub frames: Span,
    pub frame_header: Span,
}

// Where an address stands in the file; 0 where no segment has it.
fn offset_in(loads: &[ProgramHeader], address: u64) -> Result<u64, AllocError>
    ensures { IfOk result (λ offset. offset ≡ offset_in loads.now address) }
{
    match load_with(loads, address as u128) {
        None => Ok(0),
        Some(load) => load
            .offset
            .checked_add(address - load.address)
            .ok_or(AllocError),
    }
}

fn section_of(loads: &[ProgramHeader], kind: SectionKind, span: Span) -> Result<Section, AllocError>
    ensures { IfOk result (λ s. s ≡ section_of loads.now kind span) }
{
    Ok(Section {
        kind,
        address: span.address,
        offset: offset_in(loads, span.address)?,
        size: span.size,
    })
}

/// The sections of the parts of an image's memory, in order.
pub fn places_sections(
    alloc: Global,
    loads: &[ProgramHeader],
    places: &Places,
) -> Result<Vec<Section>, AllocError>
    ensures { IfOk result (λ sections. sections.items ≡ places_sections loads.now places.now) }
{
    let mut sections = Vec::new(alloc);
    sections.push(section_of(loads, SectionKind::Data, places.globals)?)?;
    sections.push(section_of(loads, SectionKind::TypeRecords, places.type_records)?)?;
    sections.push(section_of(loads, SectionKind::Code, places.code)?)?;
    sections.push(section_of(loads, SectionKind::TypeNames, places.type_names)?)?;
    sections.push(section_of(loads, SectionKind::ExceptionTables, places.exception_tables)?)?;
    sections.push(section_of(loads, SectionKind::Frames, places.frames)?)?;
    sections.push(section_of(loads, SectionKind::FrameHeader, places.frame_header)?)?;
    Ok(sections)
}

fn put_halves(out: &mut Vec<u8>, first: u32, second: u32) -> Result<(), AllocError>
    ensures { OnOk result (out.new.items ≡ out.old.items ++ halves first second) }
{
    out.extend_from_slice(u32_bytes(first).as_slice())?;
    out.extend_from_slice(u32_bytes(second).as_slice())
}

// Appends the header of a section whose name stands at a place among the names.
#[tactic(auto, unfolding(crate::specs::Section::section_bytes))]
fn put_section(out: &mut Vec<u8>, name_at: u32, section: &Section) -> Result<(), AllocError>
    ensures { OnOk result (out.new.items ≡ out.old.items ++ section_bytes name_at section.now) }
{
    let kind = section.kind;
    put_halves(out, name_at, kind.sh_type())?;
    put_words(
        out,
        [kind.flags(), section.address, section.offset, section.size].as_slice(),
    )?;
    put_halves(out, kind.link(), kind.info())?;
    put_words(out, [kind.alignment(), kind.entry_size()].as_slice())
}

/// Appends the headers of sections; the name of the first stands at a place among the names, and the others behind it.
pub fn put_sections(out: &mut Vec<u8>, name_at: u32, sections: &[Section]) -> Result<(), AllocError>
    ensures { OnOk result (out.new.items ≡ out.old.items ++ headers_from name_at sections.now) }
{
    let mut place = name_at;
    let mut rest = sections;
    'sections: while let Some((section, others)) = rest.split_first() {
        put_section(out, place, section)?;
        let size = section.kind.text().len() as u32 + 1;
        place = place.checked_add(size).ok_or(AllocError)?;
        rest = others;
    }
    Ok(())
}

/// Appends the names of sections, each with a zero behind it.
pub fn put_section_names(out: &mut Vec<u8>, kinds: &[SectionKind]) -> Result<(), AllocError>
    ensures { OnOk result (out.new.items ≡ out.old.items ++ section_names kinds.now) }
{
    let mut rest = kinds;
    'kinds: while let Some((kind, others)) = rest.split_first() {
        out.extend_from_slice(kind.text())?;
        out.push(0)?;
        rest = others;
    }
    Ok(())
}
