// Where .debug_frame stands in a file.
ghost use Rattle.std.specs.Prelude.{◌≡◌, ◌+◌, ◌*◌, ◌≤◌, ◌<◌, ◌^◌, Some, IfOk, is_some, length};
ghost use Rattle.debug_frames.specs.Least.{least_of, lesser};
ghost use Rattle.debug_frames.specs.Sections.{sections_of, bytes_of, count_of, headers_at, name_in};
ghost use Rattle.debug_frames.specs.FoundSection.{count_places, first_named, unnamed_places, found_places, header_places, refused, section_named, section_found, found_among, found_section, unless};
ghost use Rattle.debug_frames.specs.ReadsSection.{ReadsSection};

use crate::names::Names;
use crate::section::{
    SECTION_SIZE, Section, count_of, header_size, headers_at, names_number, section_at,
};
use elf_image::ImageError;
use table_forms::{Reason, Refusal};

// Where the section stands, its first byte and its size, or why it is not found.
type Found = Result<(u64, u64), Refusal>;

fn refused(reason: Reason, place: u128) -> Found
    ensures { result ≡ refused reason place }
{
    Err(Refusal {
        reason,
        place,
        location: 0,
        other: 0,
    })
}

// The place, where a condition does not hold.
#[tactic(auto, unfolding(crate::specs::Least::least_of))]
fn unless(holds: bool, place: u128) -> Option<u128>
    ensures { result ≡ least_of (unless holds place) }
{
    if holds { None } else { Some(place) }
}

// The lesser of two places.
fn lesser(first: Option<u128>, second: Option<u128>) -> Option<u128>
    ensures { result ≡ lesser first second }
{
    match first {
        None => second,
        Some(place) => match second {
            None => first,
            Some(other) => Some(place.min(other)),
        },
    }
}

// The first field that is refused of those that say where the headers stand.
#[tactic(auto, using(crate::proofs::Leasts::both))]
fn count_place(file: &[u8]) -> Option<u128>
    ensures { result ≡ least_of (count_places file.now) }
{
    let count = count_of(file);
    let end = headers_at(file) as u128 + SECTION_SIZE as u128 * count as u128;
    let first = lesser(
        unless(header_size(file) == 64, 58),
        unless(end <= file.len() as u128, 40),
    );
    lesser(first, unless(names_number(file) < count, 62))
}

// Of the headers that were passed: the first whose name has no end, and the section that is sought.
#[derive(Clone, Copy)]
struct Sought {
    least: Option<u128>,
    found: Option<Section>,
}

impl Sought {
    // And one more header.
    fn takes(&mut self, names: &Names<'_>, section: Section)
        ensures least { self.new.least ≡ lesser self.old.least (least_of (unless (is_some (name_in names.now.bytes.now section)) section.place)) }
        ensures found { self.new.found ≡ first_named self.old.found names.now.bytes.now section }
    {
        self.least = lesser(self.least, unless(names.has(&section), section.place));
        if self.found.is_none() && names.is_debug_frame(&section) {
            self.found = Some(section);
        }
    }
}

// Goes through the headers.
fn sought_in(file: &[u8], names: &Names<'_>) -> Sought
    ensures least { result.least ≡ least_of (unnamed_places names.now.bytes.now (sections_of file.now)) }
    ensures found { result.found ≡ section_named names.now.bytes.now (sections_of file.now) }
{
    let mut sought = Sought {
        least: None,
        found: None,
    };
    let mut place = headers_at(file) as u128;
    let mut left = count_of(file);
    'headers: while left > 0 {
        sought.takes(names, section_at(file, place));
        place += SECTION_SIZE as u128;
        left -= 1;
    }
    sought
}

// The header of the section that is sought, where it leaves the file.
#[tactic(auto, unfolding(crate::specs::Least::least_of))]
fn found_place(file: &[u8], found: Option<Section>) -> Option<u128>
    ensures { result ≡ least_of (found_places file.now found) }
{
    match found {
        None => None,
        Some(section) => unless(section.is_in_file(file), section.place),
    }
}

// What becomes of the section that was found.
fn section_found(found: Option<Section>) -> Found
    ensures { result ≡ section_found found }
{
    let Some(section) = found else {
        return refused(Reason::NoDebugFrames, 40);
    };
    if section.is_compressed() {
        return refused(Reason::Compressed, section.place);
    }
    Ok((section.offset, section.size))
}

// By the section of the names.
fn found_among(file: &[u8], names: Section) -> Found
    ensures { result ≡ found_among file.now (sections_of file.now) (Some names) }
{
    if !names.is_in_file(file) {
        return refused(Reason::SectionHeader, names.place);
    }
    let sought = sought_in(file, &Names::new(names.bytes_of(file)));
    match lesser(sought.least, found_place(file, sought.found)) {
        Some(place) => refused(Reason::SectionHeader, place),
        None => section_found(sought.found),
    }
}

fn found_section(file: &[u8]) -> Found
    ensures { result ≡ found_section file.now }
{
    if count_of(file) == 0 {
        return refused(Reason::NoDebugFrames, 40);
    }
    if let Some(place) = count_place(file) {
        return refused(Reason::SectionHeader, place);
    }
    let before = SECTION_SIZE as u128 * names_number(file) as u128;
    let names = section_at(file, headers_at(file) as u128 + before);
    found_among(file, names)
}

/// Where the section .debug_frame stands in a file, its first byte and its size, or why it is
/// refused: there is none, a header or a name can't be read, or it is compressed (ELF-64 Object File
/// Format, "Sections"). It is never want of memory.
#[tactic(auto, using(crate::proofs::Inside::found_inside))]
pub fn find_debug(bytes: &[u8]) -> Result<(u64, u64), ImageError>
    ensures section { ReadsSection result (found_section bytes.now) }
    ensures inside { IfOk result (λ s. s.0 + s.1 ≤ length bytes.now) }
{
    match found_section(bytes) {
        Ok(found) => Ok(found),
        Err(refusal) => Err(refusal.into()),
    }
}
