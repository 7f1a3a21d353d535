// The stack of a machine.
ghost use Rattle.std.specs.Prelude.{◌≡◌, ◌<◌, ◌≤◌, ◌^◌, ◌+◌, ◌-◌, length, slice_index, IfOk, IfSome};
ghost use Rattle.std.specs.Bool.{OnTrue};
ghost use Rattle.rv64_isa.specs.State.{covers};
ghost use Rattle.rv64_machine.specs.Bytes.{size_of, with_number};
ghost use Rattle.rv64_machine.specs.Initial.{zero_part};
ghost use Rattle.rv64_machine.specs.Parts.{Spans, access_in};

use crate::NoMemory;
use crate::below::{number_below, put_number_below};
use crate::bytes::Size;
use crate::front::grow;
use crate::memory::Access;
use std::alloc::Global;
use std::marker::Model;

// Where it ends.
const END: u64 = 0x7100_0000;

// How many bytes there are.
const SIZE: usize = 0x100_0000;

/// 16 MiB up to 0x71000000, of which the last bytes were touched; those in front are 0.
///
/// A stack grows downward, so the byte of the highest address is the first. All memory is taken at
/// the beginning; the touched bytes grow with the places that are written.
#[derive(Drop)]
pub struct Stack {
    bytes: Vec<u8>,
}

impl Model for Stack {
    ghost use Rattle.rv64_isa.specs.State.{Part};
    ghost use Rattle.rv64_machine.specs.Reserved.{IsReserved, data_part, filled_down};

    ghost Value = { Part };

    ghost view = { λ s. data_part 0x70000000 (filled_down 0x1000000 s.bytes.items) };

    ghost invariant = { λ s. IsReserved 0x1000000 s.bytes };
}

// Whether so many bytes from the address on lie among so many that were touched.
#[inline(always)]
fn touches(touched: usize, address: u64, size: u64) -> bool
    ensures to { OnTrue result (address + size ≤ 0x71000000) }
    ensures from { OnTrue result (0x71000000 ≤ address + touched) }
{
    address <= END && size <= END - address && END - address <= touched as u64
}

// The byte in front of a place, 0 behind the touched ones.
fn byte_below(bytes: &[u8], at: usize) -> u8
    requires { 1 ≤ at }
    ensures { result ≡ slice_index bytes.now (at - 1) }
{
    match bytes.get(at - 1) {
        Some(byte) => *byte,
        None => 0,
    }
}

impl Stack {
    /// The stack of a new machine.
    pub fn new(alloc: Global) -> Result<Stack, NoMemory>
        ensures { IfOk result (λ stack. stack ≡ zero_part 0x70000000 0x1000000) }
    {
        Ok(Stack {
            bytes: Vec::with_capacity(alloc, SIZE)?,
        })
    }

    /// Whether there is a byte at the address.
    pub fn covers(&self, address: u64) -> bool
        ensures { result ≡ covers self.now address }
    {
        let _ = &self.bytes;
        address < END && END - address <= SIZE as u64
    }

    /// Whether so many bytes from the address on are here and were touched.
    #[inline(always)]
    pub fn spans(&self, address: u64, size: u64) -> bool
        ensures { OnTrue result (Spans self.now address size) }
    {
        touches(self.bytes.len(), address, size)
    }

    /// The access, if all its bytes were touched.
    #[inline(always)]
    pub fn near(&self, address: u64, size: Size) -> Option<Access>
        ensures spans { IfSome result (λ access. Spans self.now address (size_of size)) }
        ensures value { IfSome result (λ access. access ≡ access_in self.now address (size_of size)) }
        ensures small { IfSome result (λ access. access.value < 256 ^ size_of size) }
    {
        if !touches(self.bytes.len(), address, size.bytes()) {
            return None;
        }
        Some(Access {
            value: number_below(&self.bytes, (END - address) as usize, size),
            write: true,
            exec: false,
        })
    }

    /// The access to one byte.
    pub fn byte(&self, address: u64) -> Access
        requires { Spans self.now address 1 }
        ensures value { result ≡ access_in self.now address 1 }
        ensures small { result.value < 256 }
    {
        let touched = &self.bytes;
        Access {
            value: u64::from(byte_below(touched, (END - address) as usize)),
            write: true,
            exec: false,
        }
    }

    /// Writes the low bytes of a value.
    #[inline(always)]
    pub fn put(&mut self, address: u64, size: Size, value: u64)
        requires { Spans self.old address (size_of size) }
        ensures bytes { self.new ≡ record self.old { bytes = with_number self.old.bytes (address - self.old.address) (size_of size) value } }
        ensures from { self.new.address ≡ self.old.address }
        ensures long { length self.new.bytes ≡ length self.old.bytes }
    {
        if touches(self.bytes.len(), address, size.bytes()) {
            put_number_below(&mut self.bytes, (END - address) as usize, size, value);
        } else {
            self.put_far(address, size, value);
        }
    }

    // The same where some of the places were not touched yet.
    #[cold]
    fn put_far(&mut self, address: u64, size: Size, value: u64)
        requires { Spans self.old address (size_of size) }
        ensures bytes { self.new ≡ record self.old { bytes = with_number self.old.bytes (address - self.old.address) (size_of size) value } }
        ensures from { self.new.address ≡ self.old.address }
        ensures long { length self.new.bytes ≡ length self.old.bytes }
    {
        let bytes = &mut self.bytes;
        let at = (END - address) as usize;
        grow(bytes, at, SIZE);
        put_number_below(bytes, at, size, value);
    }
}
