// The header of the file.
ghost use Rattle.std.specs.Prelude.{◌≡◌, option_map};
ghost use Rattle.table_forms.specs.Fault.{least};
ghost use Rattle.table_forms.specs.Seen.{fault_of};
ghost use Rattle.elf_image.specs.Header.{is_elf, is_class, is_type, is_machine, headers_fit, is_entry_size, is_count, header_faults};

use crate::number::{u8_at, u16_at, u64_at};
use table_forms::{Reason, Refusal, joined, unless};

const HEADER_SIZE: u128 = 56;

fn is_elf(file: &[u8]) -> bool
    ensures { result ≡ is_elf file.now }
{
    file.starts_with(b"\x7fELF".as_slice())
}

fn is_class(file: &[u8]) -> bool
    ensures { result ≡ is_class file.now }
{
    let Some(class) = u8_at(file, 4) else {
        return false;
    };
    let Some(order) = u8_at(file, 5) else {
        return false;
    };
    class == 2 && order == 1
}

fn is_type(file: &[u8]) -> bool
    ensures { result ≡ is_type file.now }
{
    match u16_at(file, 16) {
        None => false,
        Some(kind) => kind == 2 || kind == 3,
    }
}

fn is_machine(file: &[u8]) -> bool
    ensures { result ≡ is_machine file.now }
{
    match u16_at(file, 18) {
        None => false,
        Some(machine) => machine == 243,
    }
}

fn headers_fit(file: &[u8]) -> bool
    ensures { result ≡ headers_fit file.now }
{
    match u64_at(file, 32) {
        None => false,
        Some(offset) => {
            let count = u16_at(file, 56).unwrap_or(0);
            offset as u128 + HEADER_SIZE * count as u128 <= file.len() as u128
        }
    }
}

fn is_entry_size(file: &[u8]) -> bool
    ensures { result ≡ is_entry_size file.now }
{
    match u16_at(file, 54) {
        None => false,
        Some(size) => size == 56,
    }
}

fn is_count(file: &[u8]) -> bool
    ensures { result ≡ is_count file.now }
{
    match u16_at(file, 56) {
        None => false,
        Some(count) => 0 < count && count <= 64,
    }
}

/// What is refused in the header.
#[tactic(auto, using(crate::proofs::Joined::least_of_both), unfolding(crate::specs::Header::header_faults))]
pub fn header_refusal(file: &[u8]) -> Option<Refusal>
    ensures { option_map fault_of result ≡ least (header_faults file.now) }
{
    let first = joined(
        unless(is_elf(file), Reason::Magic, 0),
        unless(is_class(file), Reason::Class, 4),
    );
    let first = joined(first, unless(is_type(file), Reason::FileHeader, 16));
    let first = joined(first, unless(is_machine(file), Reason::Machine, 18));
    let first = joined(first, unless(headers_fit(file), Reason::FileHeader, 32));
    let first = joined(first, unless(is_entry_size(file), Reason::FileHeader, 54));
    joined(first, unless(is_count(file), Reason::FileHeader, 56))
}
