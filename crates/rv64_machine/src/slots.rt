// The exception slots of a machine.
ghost use Rattle.std.specs.Prelude.{◌≡◌, ◌<◌, ◌≤◌, ◌^◌, ◌+◌, ◌-◌, length, slice_index, IfOk, IfSome};
ghost use Rattle.std.specs.Bool.{OnTrue};
ghost use Rattle.rv64_isa.specs.State.{covers};
ghost use Rattle.rv64_machine.specs.Bytes.{size_of, with_number};
ghost use Rattle.rv64_machine.specs.Initial.{zero_part};
ghost use Rattle.rv64_machine.specs.Parts.{Spans, access_in};

use crate::NoMemory;
use crate::bytes::{Size, number_at, put_number};
use crate::front::grow;
use crate::memory::Access;
use std::alloc::Global;
use std::marker::Model;

// Where they begin.
const ADDRESS: u64 = 0x6000_0000;

// How many bytes there are.
const SIZE: usize = 0x40_0000;

/// 4 MiB at 0x60000000, of which the first bytes were touched; those behind are 0.
///
/// All memory is taken at the beginning. The touched bytes grow with the places that are written.
#[derive(Drop)]
pub struct Slots {
    bytes: Vec<u8>,
}

impl Model for Slots {
    ghost use Rattle.rv64_isa.specs.State.{Part};
    ghost use Rattle.rv64_machine.specs.Reserved.{IsReserved, data_part, filled_up};

    ghost Value = { Part };

    ghost view = { λ s. data_part 0x60000000 (filled_up 0x400000 s.bytes.items) };

    ghost invariant = { λ s. IsReserved 0x400000 s.bytes };
}

// Whether so many bytes from the address on lie among so many that were touched.
#[inline(always)]
fn touches(touched: usize, address: u64, size: u64) -> bool
    ensures from { OnTrue result (0x60000000 ≤ address) }
    ensures to { OnTrue result (address + size ≤ 0x60000000 + touched) }
{
    let touched = touched as u64;
    ADDRESS <= address && size <= touched && address - ADDRESS <= touched - size
}

// The byte at an index, 0 behind the touched ones.
fn byte_at(bytes: &[u8], at: usize) -> u8
    ensures { result ≡ slice_index bytes.now at }
{
    match bytes.get(at) {
        Some(byte) => *byte,
        None => 0,
    }
}

impl Slots {
    /// The slots of a new machine.
    pub fn new(alloc: Global) -> Result<Slots, NoMemory>
        ensures { IfOk result (λ slots. slots ≡ zero_part 0x60000000 0x400000) }
    {
        Ok(Slots {
            bytes: Vec::with_capacity(alloc, SIZE)?,
        })
    }

    /// Whether there is a byte at the address.
    pub fn covers(&self, address: u64) -> bool
        ensures { result ≡ covers self.now address }
    {
        let _ = &self.bytes;
        ADDRESS <= address && address - ADDRESS < SIZE as u64
    }

    /// Whether so many bytes from the address on are here and were touched.
    #[inline(always)]
    pub fn spans(&self, address: u64, size: u64) -> bool
        ensures { OnTrue result (Spans self.now address size) }
    {
        touches(self.bytes.len(), address, size)
    }

    /// The access, if all its bytes were touched.
    #[inline(always)]
    pub fn near(&self, address: u64, size: Size) -> Option<Access>
        ensures spans { IfSome result (λ access. Spans self.now address (size_of size)) }
        ensures value { IfSome result (λ access. access ≡ access_in self.now address (size_of size)) }
        ensures small { IfSome result (λ access. access.value < 256 ^ size_of size) }
    {
        if !touches(self.bytes.len(), address, size.bytes()) {
            return None;
        }
        Some(Access {
            value: number_at(&self.bytes, (address - ADDRESS) as usize, size),
            write: true,
            exec: false,
        })
    }

    /// The access to one byte.
    pub fn byte(&self, address: u64) -> Access
        requires { Spans self.now address 1 }
        ensures value { result ≡ access_in self.now address 1 }
        ensures small { result.value < 256 }
    {
        let touched = &self.bytes;
        Access {
            value: u64::from(byte_at(touched, (address - ADDRESS) as usize)),
            write: true,
            exec: false,
        }
    }

    /// Writes the low bytes of a value.
    #[inline(always)]
    pub fn put(&mut self, address: u64, size: Size, value: u64)
        requires { Spans self.old address (size_of size) }
        ensures bytes { self.new ≡ record self.old { bytes = with_number self.old.bytes (address - self.old.address) (size_of size) value } }
        ensures from { self.new.address ≡ self.old.address }
        ensures long { length self.new.bytes ≡ length self.old.bytes }
    {
        if touches(self.bytes.len(), address, size.bytes()) {
            put_number(&mut self.bytes, (address - ADDRESS) as usize, size, value);
        } else {
            self.put_far(address, size, value);
        }
    }

    // The same where some of the places were not touched yet.
    #[cold]
    fn put_far(&mut self, address: u64, size: Size, value: u64)
        requires { Spans self.old address (size_of size) }
        ensures bytes { self.new ≡ record self.old { bytes = with_number self.old.bytes (address - self.old.address) (size_of size) value } }
        ensures from { self.new.address ≡ self.old.address }
        ensures long { length self.new.bytes ≡ length self.old.bytes }
    {
        let bytes = &mut self.bytes;
        let at = (address - ADDRESS) as usize;
        grow(bytes, at + size.bytes() as usize, SIZE);
        put_number(bytes, at, size, value);
    }
}
