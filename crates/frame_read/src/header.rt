// The header of the frames (LSB Core, "The .eh_frame_hdr section").
ghost use Rattle.std.specs.Prelude.{◌≡◌, ◌+◌, ◌%◌, ◌^◌, ◌≤◌, ◌==◌, ◌&&◌, ◌||◌, if◌then◌else◌, Some, None, Ok, IfOk, length, vec_len, option_map};
ghost use Rattle.eh_bytes.specs.Memory.{part_of};
ghost use Rattle.eh_bytes.specs.Encoded.{extended};
ghost use Rattle.table_forms.specs.Fault.{least};
ghost use Rattle.table_forms.specs.Header.{is_bare, encodings_at, encoding_faults, from_start, row_in, rows_within, table_rows, with_encodings, header_at};
ghost use Rattle.table_forms.specs.Seen.{fault_of};
ghost use Rattle.frame_read.specs.Reads.{Reads};
ghost use Rattle.frame_read.specs.SeenSpan.{cut_of};
ghost use Rattle.frame_read.specs.SeenHeader.{encodings_seen, rows_seen, summary, header_seen};

use crate::field::{byte_at, u32_at};
use crate::header_read::{Encodings, HeaderRead};
use eh_bytes::{HdrRow, Segment};
use std::alloc::{AllocError, Global};
use table_forms::{Reason, Refusal, joined, refused, unless};

// The three encodings behind the version.
#[tactic(auto, unfolding(table_forms::specs::Header::encodings_at))]
fn encodings_of(segment: &Segment, place: usize) -> Result<Encodings, Refusal>
    requires { place ≤ length segment.now.bytes.items }
    ensures reads { Reads encodings_seen result (encodings_at (part_of segment.now) place) }
    ensures room { IfOk result (λ _. place + 4 ≤ length segment.now.bytes.items) }
{
    let end = segment.bytes.len();
    let (version, next) = byte_at(segment, end, place)?;
    if version != 1 {
        return Err(refused(Reason::Version, segment.file_at as u128 + place as u128));
    }
    let (pointer, next) = byte_at(segment, end, next)?;
    let (count, next) = byte_at(segment, end, next)?;
    let (table, _) = byte_at(segment, end, next)?;
    Ok(Encodings {
        pointer,
        count,
        table,
    })
}

impl Encodings {
    // There is no table.
    fn is_bare(self) -> bool
        ensures { result ≡ is_bare (encodings_seen self) }
    {
        self.count == 0xff && self.table == 0xff
    }

    fn is_count_known(self) -> bool
        ensures { result ≡ (is_bare (encodings_seen self) || self.count == 0x03) }
    {
        self.is_bare() || self.count == 0x03
    }

    fn is_table_known(self) -> bool
        ensures { result ≡ (is_bare (encodings_seen self) || self.table == 0x3b) }
    {
        self.is_bare() || self.table == 0x3b
    }

    fn has_table(self) -> bool
        ensures { result ≡ (self.count == 0x03 && self.table == 0x3b) }
    {
        self.count == 0x03 && self.table == 0x3b
    }
}

// What is refused of the encodings.
fn encodings_refusal(segment: &Segment, place: usize, encodings: Encodings) -> Option<Refusal>
    ensures { option_map fault_of result ≡ least (encoding_faults (part_of segment.now) place (encodings_seen encodings)) }
{
    let file_at = segment.file_at as u128;
    let place = place as u128;
    let pointer = unless(
        encodings.pointer == 0x1b,
        Reason::Encoding,
        file_at + (place + 1),
    );
    let count = unless(
        encodings.is_count_known(),
        Reason::Encoding,
        file_at + (place + 2),
    );
    let table = unless(
        encodings.is_table_known(),
        Reason::Encoding,
        file_at + (place + 3),
    );
    joined(joined(pointer, count), table)
}

// A number of four bytes with its sign, modulo 2^64.
fn extended(number: u32) -> u64
    ensures { result ≡ extended 4 number }
{
    if number < 0x8000_0000 {
        number as u64
    } else {
        number as u64 + 0xFFFF_FFFF_0000_0000
    }
}

// A number that counts from the header's start.
fn from_start(start: u64, number: u32) -> u64
    ensures { result ≡ from_start start number }
{
    start.wrapping_add(extended(number))
}

// The row at a place.
fn row_of(segment: &Segment, start: u64, place: usize) -> Result<(HdrRow, usize), Refusal>
    requires { place ≤ length segment.now.bytes.items }
    ensures reads { Reads (λ x. x.0) result (row_in (part_of segment.now) start place) }
    ensures next { IfOk result (λ x. x.1 ≡ place + 8) }
    ensures inside { IfOk result (λ x. x.1 ≤ length segment.now.bytes.items) }
{
    let end = segment.bytes.len();
    let (location, next) = u32_at(segment, end, place)?;
    let (fde, next) = u32_at(segment, end, next)?;
    let row = HdrRow {
        location: from_start(start, location),
        fde: from_start(start, fde),
    };
    Ok((row, next))
}

// So many rows from a place on, or those before the first that is cut, and its refusal.
fn rows_of(
    alloc: Global,
    segment: &Segment,
    start: u64,
    count: u32,
    first: usize,
) -> Result<(Vec<HdrRow>, Option<Refusal>), AllocError>
    requires { first ≤ length segment.now.bytes.items }
    ensures { IfOk result (λ r. rows_within count (part_of segment.now) start first ≡ record { rows = r.0.items; cut = cut_of r.1 }) }
{
    let mut rows = Vec::new(alloc);
    let mut place = first;
    let mut left = count;
    'rows: while left > 0 {
        match row_of(segment, start, place) {
            Err(e) => return Ok((rows, Some(e))),
            Ok((row, next)) => {
                rows.push(row)?;
                place = next;
                left -= 1;
            }
        }
    }
    Ok((rows, None))
}

// The table behind the pointer, where its encodings are right.
fn table_of(
    alloc: Global,
    segment: &Segment,
    start: u64,
    encodings: Encodings,
    place: usize,
) -> Result<Option<(Vec<HdrRow>, Option<Refusal>)>, AllocError>
    requires { place ≤ length segment.now.bytes.items }
    ensures { IfOk result (λ t. option_map rows_seen t ≡ table_rows (encodings.count == 0x03 && encodings.table == 0x3b) (part_of segment.now) start place) }
{
    if !encodings.has_table() {
        return Ok(None);
    }
    match u32_at(segment, segment.bytes.len(), place) {
        Err(e) => Ok(Some((Vec::new(alloc), Some(e)))),
        Ok((count, next)) => Ok(Some(rows_of(alloc, segment, start, count, next)?)),
    }
}

// The address of the frames, where its encoding is right.
fn frames_address(encodings: Encodings, start: u64, number: u32) -> Option<u64>
    ensures { result ≡ (if encodings.pointer == 0x1b then Some (if number == 0 then 0 else (start + 4 + extended 4 number) % 2 ^ 64) else None) }
{
    if encodings.pointer != 0x1b {
        return None;
    }
    if number == 0 {
        return Some(0);
    }
    let address = (start as u128 + 4 + extended(number) as u128) % (1 << 64);
    Some(address as u64)
}

// What a header says behind its encodings.
#[tactic(auto, using(crate::proofs::Joined::two, crate::proofs::Joined::least_cut), unfolding(table_forms::specs::Fault::least))]
fn behind_encodings(
    alloc: Global,
    segment: &Segment,
    start: u64,
    place: usize,
    encodings: Encodings,
) -> Result<HeaderRead, AllocError>
    requires start { start ≡ segment.now.address + place }
    requires room { place + 4 ≤ length segment.now.bytes.items }
    ensures { IfOk result (λ h. header_seen h ≡ summary (with_encodings (part_of segment.now) place (Ok (encodings_seen encodings)))) }
{
    let refusal = encodings_refusal(segment, place, encodings);
    match u32_at(segment, segment.bytes.len(), place + 4) {
        Err(e) => Ok(HeaderRead {
            frames_at: None,
            rows: None,
            least: joined(refusal, Some(e)),
        }),
        Ok((number, next)) => {
            let frames_at = frames_address(encodings, start, number);
            match table_of(alloc, segment, start, encodings, next)? {
                None => Ok(HeaderRead {
                    frames_at,
                    rows: None,
                    least: refusal,
                }),
                Some((rows, cut)) => Ok(HeaderRead {
                    frames_at,
                    rows: Some(rows),
                    least: joined(refusal, cut),
                }),
            }
        }
    }
}

/// What a header says, as far as it can be read.
#[tactic(auto, unfolding(table_forms::specs::Header::header_at, table_forms::specs::Fault::least))]
pub fn header_of(
    alloc: Global,
    segment: &Segment,
    start: u64,
    place: usize,
) -> Result<HeaderRead, AllocError>
    requires start { start ≡ segment.now.address + place }
    requires place { place ≤ length segment.now.bytes.items }
    ensures { IfOk result (λ h. header_seen h ≡ summary (header_at (part_of segment.now) place)) }
{
    match encodings_of(segment, place) {
        Err(e) => Ok(HeaderRead {
            frames_at: None,
            rows: None,
            least: Some(e),
        }),
        Ok(encodings) => behind_encodings(alloc, segment, start, place, encodings),
    }
}
