// Segments that are loaded, and what is refused of them.
ghost use Rattle.std.specs.Prelude.{◌≡◌, ◌<◌, ◌≤◌, ◌^◌, ◌+◌, ◌*◌, [], length, option_map};
ghost use Rattle.std.specs.List.{list_any};
ghost use Rattle.table_forms.specs.Fault.{least};
ghost use Rattle.table_forms.specs.Seen.{fault_of};
ghost use Rattle.elf_image.specs.Loads.{is_placed, meet, one_faults, load_faults, is_low, low_faults, covers, is_within};

use crate::program::ProgramHeader;
use table_forms::{Reason, Refusal, joined, unless};

const GIB: u128 = 0x4000_0000;

const LOWEST: u64 = 0x1_0000;

const HIGHEST: u128 = 0x6000_0000;

const MOST_TO_RUN: u128 = 0x400_0000;

fn is_placed(len: u64, before: u128, header: &ProgramHeader) -> bool
    requires { before < 2 ^ 126 }
    ensures { result ≡ is_placed len before header.now }
{
    header.offset as u128 + header.file_size as u128 <= len as u128
        && header.end() <= 0x1_0000_0000_0000_0000
        && header.file_size <= header.memory_size
        && before + header.memory_size as u128 <= GIB
}

// Whether some place lies in both.
fn meet(one: &ProgramHeader, other: &ProgramHeader) -> bool
    ensures { result ≡ meet one.now other.now }
{
    0 < one.memory_size
        && 0 < other.memory_size
        && (one.address as u128) < other.end()
        && (other.address as u128) < one.end()
}

fn meets_one(header: &ProgramHeader, earlier: &[ProgramHeader]) -> bool
    ensures { result ≡ list_any (meet header.now) earlier.now }
{
    earlier.iter().any(|other| meet(header, other))
}

// What is refused of a segment.
#[tactic(auto, using(crate::proofs::Joined::least_of_both))]
fn one_refusal(
    len: u64,
    before: u128,
    earlier: &[ProgramHeader],
    header: &ProgramHeader,
) -> Option<Refusal>
    requires { before < 2 ^ 126 }
    ensures { option_map fault_of result ≡ least (one_faults len before earlier.now header.now) }
{
    let place = header.place;
    joined(
        unless(is_placed(len, before, header), Reason::SegmentRange, place),
        unless(!meets_one(header, earlier), Reason::SegmentOverlap, place),
    )
}

/// What is refused of segments that are loaded from a file of so many bytes.
pub fn load_refusal(len: u64, loads: &[ProgramHeader]) -> Option<Refusal>
    requires { length loads.now ≤ 2 ^ 16 }
    ensures { option_map fault_of result ≡ least (load_faults len 0 [] loads.now) }
{
    let mut least = None;
    let mut before = 0u128;
    let mut at = 0;
    'loads: while at < loads.len() {
        let header = &loads[at];
        least = joined(least, one_refusal(len, before, &loads[..at], header));
        before += header.memory_size as u128;
        at += 1;
    }
    least
}

fn is_low(before: u128, header: &ProgramHeader) -> bool
    requires { before < 2 ^ 126 }
    ensures { result ≡ is_low before header.now }
{
    LOWEST <= header.address
        && header.end() <= HIGHEST
        && before + header.memory_size as u128 <= MOST_TO_RUN
}

/// What is refused of them besides where the image is to run.
#[tactic(auto, using(crate::proofs::Joined::low_step, crate::proofs::Joined::none_more), unfolding(table_forms::specs::Fault::least))]
pub fn low_refusal(loads: &[ProgramHeader]) -> Option<Refusal>
    requires { length loads.now ≤ 2 ^ 16 }
    ensures { option_map fault_of result ≡ least (low_faults 0 loads.now) }
{
    let mut least = None;
    let mut before = 0u128;
    let mut rest = loads;
    'loads: while let Some((header, others)) = rest.split_first() {
        least = joined(
            least,
            unless(is_low(before, header), Reason::SegmentRange, header.place),
        );
        before += header.memory_size as u128;
        rest = others;
    }
    least
}

fn covers(header: &ProgramHeader, load: &ProgramHeader) -> bool
    ensures { result ≡ covers header.now load.now }
{
    load.address <= header.address && header.end() <= load.end()
}

fn lies_in_one(header: &ProgramHeader, loads: &[ProgramHeader]) -> bool
    ensures { result ≡ list_any (covers header.now) loads.now }
{
    loads.iter().any(|load| covers(header, load))
}

/// Whether it is there, and lies inside one of the segments that are loaded.
pub fn is_within(loads: &[ProgramHeader], header: Option<ProgramHeader>) -> bool
    ensures { result ≡ is_within loads.now header }
{
    match header {
        None => false,
        Some(header) => lies_in_one(&header, loads),
    }
}
