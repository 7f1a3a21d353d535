// Program headers.
ghost use Rattle.std.specs.Prelude.{◌≡◌, ◌<◌, ◌≤◌, ◌^◌, true, find, IfOk, IfSome, ◌==◌, length};
ghost use Rattle.std.specs.Option.{option_copied};
ghost use Rattle.elf_image.specs.Runtime.{has_address};
ghost use Rattle.elf_image.specs.Programs.{header_at, headers_from, headers_of, is_load, loaded, frames_header, runtime_header, end_of, is_executable, is_writable};

use crate::number::{u16_at, u32_at, word};
use std::alloc::{AllocError, Global};

/// The type of a header of a segment that is loaded (PT_LOAD).
pub const LOAD: u32 = 1;

/// The type of the header of the frames' header (PT_GNU_EH_FRAME).
pub const FRAMES: u32 = 0x6474_e550;

/// The type of the header of the record for the runtime.
pub const RUNTIME: u32 = 0x6e48_5831;

/// A program header (ELF-64 Object File Format, program headers), with its place in the file.
#[derive(Clone, Copy, Debug)]
pub struct ProgramHeader {
    pub place: u128,
    pub kind: u32,
    pub flags: u32,
    pub offset: u64,
    pub address: u64,
    pub file_size: u64,
    pub memory_size: u64,
}

impl ProgramHeader {
    /// Behind its last address.
    pub fn end(&self) -> u128
        ensures { result ≡ end_of self.now }
    {
        self.address as u128 + self.memory_size as u128
    }

    /// Whether its segment is loaded.
    pub fn is_load(&self) -> bool
        ensures { result ≡ is_load self.now }
    {
        self.kind == LOAD
    }

    /// Whether its segment has the address.
    pub fn has_address(&self, address: u128) -> bool
        ensures { result ≡ has_address address self.now }
    {
        self.address as u128 <= address && address < self.end()
    }

    /// Whether its segment holds code (PF_X).
    pub fn is_executable(&self) -> bool
        ensures { result ≡ is_executable self.now }
    {
        self.flags % 2 == 1
    }

    /// Whether its segment may be written (PF_W).
    pub fn is_writable(&self) -> bool
        ensures { result ≡ is_writable self.now }
    {
        self.flags / 2 % 2 == 1
    }
}

// The program header at a place, where a field that is not whole in the file is 0.
#[tactic(auto, unfolding(crate::specs::Programs::header_at))]
fn header_at(file: &[u8], place: u128) -> ProgramHeader
    requires { place < 2 ^ 126 }
    ensures { result ≡ header_at file.now place }
{
    ProgramHeader {
        place,
        kind: u32_at(file, place).unwrap_or(0),
        flags: u32_at(file, place + 4).unwrap_or(0),
        offset: word(file, place + 8),
        address: word(file, place + 16),
        file_size: word(file, place + 32),
        memory_size: word(file, place + 40),
    }
}

/// The program headers, in order.
#[tactic(auto, unfolding(crate::specs::Programs::headers_of))]
pub fn headers_of(alloc: Global, file: &[u8]) -> Result<Vec<ProgramHeader>, AllocError>
    ensures headers { IfOk result (λ headers. headers.items ≡ headers_of file.now) }
    ensures few { IfOk result (λ headers. length headers.items ≤ 2 ^ 16) }
{
    let count = u16_at(file, 56).unwrap_or(0);
    let mut place = word(file, 32) as u128;
    let mut headers = Vec::new(alloc);
    let mut left = count;
    'headers: while left > 0 {
        headers.push(header_at(file, place))?;
        place += 56;
        left -= 1;
    }
    Ok(headers)
}

/// The headers of segments that are loaded.
pub fn loads(alloc: Global, headers: &[ProgramHeader]) -> Result<Vec<ProgramHeader>, AllocError>
    ensures loaded { IfOk result (λ found. found.items ≡ loaded headers.now) }
    ensures few { IfOk result (λ found. length found.items ≤ length headers.now) }
{
    let mut found = Vec::new(alloc);
    let mut rest = headers;
    'headers: while let Some((header, others)) = rest.split_first() {
        if header.is_load() {
            found.push(*header)?;
        }
        rest = others;
    }
    Ok(found)
}

/// The first segment that has an address.
pub fn load_with(loads: &[ProgramHeader], address: u128) -> Option<&ProgramHeader>
    ensures first { option_copied result ≡ find (has_address address) loads.now }
    ensures has { IfSome result (λ load. has_address address load.now ≡ true) }
{
    loads.iter().find(|load| load.has_address(address))
}

// The first header of a kind.
fn first_of(headers: &[ProgramHeader], kind: u32) -> Option<&ProgramHeader>
    ensures { option_copied result ≡ find (λ h. h.kind == kind) headers.now }
{
    headers.iter().find(|header| header.kind == kind)
}

/// The header of the frames' header.
pub fn frames_header(headers: &[ProgramHeader]) -> Option<ProgramHeader>
    ensures { result ≡ frames_header headers.now }
{
    match first_of(headers, FRAMES) {
        None => None,
        Some(header) => Some(*header),
    }
}

/// The header of the record for the runtime.
pub fn runtime_header(headers: &[ProgramHeader]) -> Option<ProgramHeader>
    ensures { result ≡ runtime_header headers.now }
{
    match first_of(headers, RUNTIME) {
        None => None,
        Some(header) => Some(*header),
    }
}
