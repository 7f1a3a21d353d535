// Section headers (ELF-64 Object File Format, "Sections").
ghost use Rattle.std.specs.Prelude.{◌≡◌, ◌+◌, ◌*◌, ◌<◌, ◌≤◌, ◌^◌, drop, length, take};
ghost use Rattle.debug_frames.specs.Sections.{section_at, headers_at, header_size, count_of, names_number, is_in_file, bytes_of, is_compressed};

use elf_image::number::{u16_at, u32_at, word};

/// The size of a section's header.
pub const SECTION_SIZE: u64 = 64;

const COMPRESSED: u64 = 0x800;

/// A section's header by its place, with the place of its name among the names, its flags, and where
/// its bytes stand in the file.
#[derive(Clone, Copy, Debug)]
pub struct Section {
    pub place: u128,
    pub name: u32,
    pub flags: u64,
    pub offset: u64,
    pub size: u64,
}

/// Where the section headers stand.
pub fn headers_at(file: &[u8]) -> u64
    ensures { result ≡ headers_at file.now }
{
    word(file, 40)
}

/// The size of one of them.
pub fn header_size(file: &[u8]) -> u16
    ensures { result ≡ header_size file.now }
{
    u16_at(file, 58).unwrap_or(0)
}

/// How many they are.
pub fn count_of(file: &[u8]) -> u16
    ensures { result ≡ count_of file.now }
{
    u16_at(file, 60).unwrap_or(0)
}

/// The number of the section that has the names.
pub fn names_number(file: &[u8]) -> u16
    ensures { result ≡ names_number file.now }
{
    u16_at(file, 62).unwrap_or(0)
}

/// The section's header at a place, where a field that is not whole in the file is 0.
#[tactic(auto, unfolding(crate::specs::Sections::section_at))]
pub fn section_at(file: &[u8], place: u128) -> Section
    requires { place < 2 ^ 126 }
    ensures { result ≡ section_at file.now place }
{
    Section {
        place,
        name: u32_at(file, place).unwrap_or(0),
        flags: word(file, place + 8),
        offset: word(file, place + 24),
        size: word(file, place + 32),
    }
}

/// So many bytes from a place on.
pub fn bytes_at(file: &[u8], offset: u64, size: u64) -> &[u8]
    requires { offset + size ≤ length file.now }
    ensures { result.now ≡ take size (drop offset file.now) }
{
    &file[offset as usize..][..size as usize]
}

impl Section {
    /// Whether its bytes lie in the file.
    pub fn is_in_file(&self, file: &[u8]) -> bool
        ensures { result ≡ is_in_file file.now self.now }
    {
        self.offset as u128 + self.size as u128 <= file.len() as u128
    }

    /// Its bytes.
    pub fn bytes_of<'a>(&self, file: &'a [u8]) -> &'a [u8]
        requires { self.now.offset + self.now.size ≤ length file.now }
        ensures { result.now ≡ bytes_of file.now self.now }
    {
        bytes_at(file, self.offset, self.size)
    }

    pub fn is_compressed(&self) -> bool
        ensures { result ≡ is_compressed self.now }
    {
        self.flags / COMPRESSED % 2 == 1
    }
}
