// What an image to run has besides.
ghost use Rattle.std.specs.Prelude.{◌≡◌, true, option_map};
ghost use Rattle.std.specs.List.{list_any};
ghost use Rattle.table_forms.specs.Fault.{least};
ghost use Rattle.table_forms.specs.Seen.{fault_of};
ghost use Rattle.elf_image.specs.Runtime.{has_address, byte_in, byte_at, is_bare_at, has_table, is_stub, has_stub, is_runtime, runtime_faults, runtime_of};

use crate::number::{u8_at, word};
use crate::program::{ProgramHeader, load_with};
use eh_bytes::RuntimeRecord;
use table_forms::{Reason, Refusal, unless};

pub const FORMAT: u64 = 1;

pub const RECORD_SIZE: u64 = 24;

// The byte of a segment at an address that it has.
fn byte_in(file: &[u8], address: u128, header: &ProgramHeader) -> u8
    requires { has_address address header.now ≡ true }
    ensures { result ≡ byte_in file.now address header.now }
{
    let at = address - header.address as u128;
    if at < header.file_size as u128 {
        u8_at(file, header.offset as u128 + at).unwrap_or(0)
    } else {
        0
    }
}

// The byte of the memory at an address, or 0.
fn byte_at(file: &[u8], loads: &[ProgramHeader], address: u128) -> u8
    ensures { result ≡ byte_at file.now loads.now address }
{
    match load_with(loads, address) {
        None => 0,
        Some(load) => byte_in(file, address, load),
    }
}

/// Whether the frames' header has a table.
pub fn has_table(file: &[u8], loads: &[ProgramHeader], header: Option<ProgramHeader>) -> bool
    ensures { result ≡ has_table file.now loads.now header }
{
    match header {
        None => false,
        Some(header) => {
            let address = header.address as u128;
            !(byte_at(file, loads, address + 2) == 0xff
                && byte_at(file, loads, address + 3) == 0xff)
        }
    }
}

fn is_stub(stub: u64, load: &ProgramHeader) -> bool
    ensures { result ≡ is_stub stub load.now }
{
    load.is_executable() && load.has_address(stub as u128)
}

fn is_code(loads: &[ProgramHeader], stub: u64) -> bool
    ensures { result ≡ list_any (is_stub stub) loads.now }
{
    loads.iter().any(|load| is_stub(stub, load))
}

// Whether it is the address of code, at a multiple of 4.
fn has_stub(loads: &[ProgramHeader], stub: u64) -> bool
    ensures { result ≡ has_stub loads.now stub }
{
    stub % 4 == 0 && is_code(loads, stub)
}

fn is_runtime(file: &[u8], loads: &[ProgramHeader], header: &ProgramHeader) -> bool
    ensures { result ≡ is_runtime file.now loads.now header.now }
{
    header.offset as u128 + header.file_size as u128 <= file.len() as u128
        && header.file_size == RECORD_SIZE
        && word(file, header.offset as u128) == FORMAT
        && has_stub(loads, word(file, header.offset as u128 + 8))
}

/// What is refused of the record for the runtime, where there is one.
#[tactic(auto, unfolding(table_forms::specs::Fault::least))]
pub fn runtime_refusal(
    file: &[u8],
    loads: &[ProgramHeader],
    header: Option<ProgramHeader>,
) -> Option<Refusal>
    ensures { option_map fault_of result ≡ least (runtime_faults file.now loads.now header) }
{
    match header {
        None => None,
        Some(header) => unless(
            is_runtime(file, loads, &header),
            Reason::Runtime,
            header.place,
        ),
    }
}

/// The record for the runtime, where there is one.
pub fn runtime_of(file: &[u8], header: Option<ProgramHeader>) -> Option<RuntimeRecord>
    ensures { result ≡ option_map (runtime_of file.now) header }
{
    match header {
        None => None,
        Some(header) => Some(RuntimeRecord {
            terminate: word(file, header.offset as u128 + 8),
            bad_exception: word(file, header.offset as u128 + 16),
        }),
    }
}
