// The type records of a native exception.
ghost use Rattle.std.specs.Prelude.{◌≡◌, option_map};
ghost use Rattle.personality.specs.Seen.{types_of};
ghost use Rattle.cxa_runtime.specs.Types.{word_at, base_of, type_records};

use personality::TypeChain;
use rv64_machine::Machine;

// How many records a type and its bases may have.
const MOST: u8 = 64;

// The word at an address, where it can be read.
fn word_at(machine: &Machine, address: u64) -> Option<u64>
    ensures { result ≡ word_at machine.now address }
{
    machine.load_u64(address).ok()
}

// The address of the record of the base, or 0, where the record can be read.
fn base_of(machine: &Machine, address: u64) -> Option<u64>
    ensures { result ≡ base_of machine.now address }
{
    let _kind = word_at(machine, address)?;
    let _name = word_at(machine, address.wrapping_add(8))?;
    word_at(machine, address.wrapping_add(16))
}

/// The type whose record stands at an address, with its bases.
pub fn types_at(machine: &Machine, address: u64) -> Option<TypeChain>
    ensures { option_map types_of result ≡ type_records machine.now address }
{
    let mut records = [0; 64];
    let mut record = address;
    'records: for count in 0..MOST {
        records[count as usize] = record;
        let base = base_of(machine, record)?;
        if base == 0 {
            return Some(TypeChain {
                records,
                length: count + 1,
            });
        }
        record = base;
    }
    None
}
