// The memory of a machine.
ghost use Rattle.std.specs.Prelude.{◌≡◌, ◌<◌, ◌≤◌, ◌^◌, ◌+◌, ◌*◌, ◌-◌, ◌∷◌, drop, find, map, option_map, option_and_then, if◌then◌else◌, Some, None, IfOk, IfSome, length, position, slice_get, slice_set};
ghost use Rattle.std.specs.Bool.{OnFalse, OnTrue};
ghost use Rattle.std.specs.Option.{option_copied};
ghost use Rattle.eh_bytes.specs.Extent.{AreBelow, extent_of, extents_of};
ghost use Rattle.rv64_isa.specs.State.{covers, part_with, with_byte, with_value};
ghost use Rattle.rv64_isa.specs.Step.{fetched};
ghost use Rattle.rv64_machine.specs.Bytes.{size_of, with_number};
ghost use Rattle.rv64_machine.specs.Initial.{zero_part};
ghost use Rattle.rv64_machine.specs.Parts.{Spans, access_in, accessed, byte_accessed, join, part_of};

use crate::NoMemory;
use crate::bytes::{Size, number_at, put_number, word_at};
use crate::slots::Slots;
use crate::stack::Stack;
use eh_bytes::{Segment, Segments};
use std::alloc::Global;
use std::marker::Model;

/// What stands at an address, and what may be done with it.
#[derive(Clone, Copy, Debug, PartialEq, Eq)]
pub struct Access {
    /// The number of the bytes, the lowest first.
    pub value: u64,
    /// Whether each byte may be written.
    pub write: bool,
    /// Whether each byte may be executed.
    pub exec: bool,
}

/// The segments that a machine was given, its exception slots and its stack.
///
/// It remembers which segment served the last fetch, and the last load or store that was outside
/// slots and stack.
#[derive(Drop)]
pub struct Memory {
    segments: Segments,
    slots: Slots,
    stack: Stack,
    last_code: usize,
    last_data: usize,
}

impl Model for Memory {
    ghost use Rattle.std.specs.Prelude.{List};
    ghost use Rattle.rv64_isa.specs.State.{Part};
    ghost use Rattle.rv64_machine.specs.Parts.{IsLaidOut, memory_of};

    ghost Value = { List Part };

    ghost view = { λ m. memory_of m.slots m.stack m.segments.parts.items };

    ghost invariant = { λ m. IsLaidOut m.slots m.stack m.segments.parts.items };
}

// Whether the segment has so many bytes from the address on.
#[inline(always)]
fn spans(part: &Segment, address: u64, size: u64) -> bool
    ensures { OnTrue result (Spans (part_of part.now) address size) }
{
    let length = part.bytes.len() as u64;
    part.address <= address && size <= length && address - part.address <= length - size
}

#[inline(always)]
fn access_in(part: &Segment, address: u64, size: Size) -> Access
    requires { Spans (part_of part.now) address (size_of size) }
    ensures value { result ≡ access_in (part_of part.now) address (size_of size) }
    ensures small { result.value < 256 ^ size_of size }
{
    Access {
        value: number_at(&part.bytes, (address - part.address) as usize, size),
        write: part.write,
        exec: part.exec,
    }
}

#[inline(always)]
fn segment_at(segments: &[Segment], i: usize) -> Option<&Segment>
    ensures { option_copied result ≡ slice_get segments.now i }
{
    segments.get(i)
}

// The first segment that has a byte at the address.
fn find_in(segments: &[Segment], address: u64) -> Option<&Segment>
    ensures first { option_copied result ≡ find (λ part. covers (part_of part) address) segments.now }
    ensures spans { IfSome result (λ part. Spans (part_of part.now) address 1) }
{
    segments.iter().find(|part| part.covers(address))
}

// The same, as a part.
fn first_in(segments: &[Segment], address: u64) -> Option<&Segment>
    ensures first { option_map (λ part. part_of part.now) result ≡ part_with (map part_of segments.now) address }
    ensures spans { IfSome result (λ part. Spans (part_of part.now) address 1) }
{
    find_in(segments, address)
}

// Its place.
fn position_in(segments: &[Segment], address: u64) -> Option<usize>
    ensures place { result ≡ position (λ part. covers (part_of part) address) segments.now }
    ensures inside { IfSome result (λ i. i < length segments.now) }
    ensures spans { IfSome result (λ i. IfSome (slice_get segments.now i) (λ part. Spans (part_of part) address 1)) }
{
    segments.iter().position(|part| part.covers(address))
}

// The place of that segment, or 0.
fn index_in(segments: &[Segment], address: u64) -> usize {
    position_in(segments, address).unwrap_or(0)
}

fn joined(low: Option<Access>, high: Option<Access>, place: u64) -> Option<Access>
    requires low_small { IfSome low (λ access. access.value < place) }
    requires high_small { IfSome high (λ access. place * access.value + place ≤ 2 ^ 64) }
    ensures { result ≡ join place low high }
{
    let low = low?;
    let high = high?;
    Some(Access {
        value: low.value + place * high.value,
        write: low.write && high.write,
        exec: low.exec && high.exec,
    })
}

// Writes the low bytes of a value into a segment.
#[inline(always)]
fn put_in(part: &mut Segment, address: u64, size: Size, value: u64)
    requires { Spans (part_of part.old) address (size_of size) }
    ensures bytes { part_of part.new ≡ record (part_of part.old) { bytes = with_number part.old.bytes.items (address - part.old.address) (size_of size) value } }
    ensures extent { extent_of part.new ≡ extent_of part.old }
{
    let at = (address - part.address) as usize;
    put_number(&mut part.bytes, at, size, value);
}

// Whether there is a segment of this number, which has so many bytes from the address on.
#[inline(always)]
fn segment_spans(segments: &[Segment], i: usize, address: u64, size: u64) -> bool
    ensures inside { OnTrue result (i < length segments.now) }
    ensures spans { OnTrue result (IfSome (slice_get segments.now i) (λ part. Spans (part_of part) address size)) }
{
    match segment_at(segments, i) {
        Some(part) => spans(part, address, size),
        None => false,
    }
}

// Writes the low bytes of a value into the segment of this number.
#[inline(always)]
fn put_in_segment(segments: &mut Segments, i: usize, address: u64, size: Size, value: u64)
    requires inside { i < length segments.old.parts.items }
    requires spans { IfSome (slice_get segments.old.parts.items i) (λ part. Spans (part_of part) address (size_of size)) }
    ensures bytes { IfSome (slice_get segments.old.parts.items i) (λ part. map part_of segments.new.parts.items ≡ slice_set (map part_of segments.old.parts.items) i (record (part_of part) { bytes = with_number part.bytes.items (address - part.address) (size_of size) value })) }
    ensures extents { extents_of segments.new.parts.items ≡ extents_of segments.old.parts.items }
{
    let part = &mut segments.parts[i];
    put_in(part, address, size, value);
}

impl Memory {
    // The access, if one of the slots, the stack and the segment at the hint serves it.
    #[inline(always)]
    fn near(&self, hint: usize, address: u64, size: Size) -> Option<Access>
        ensures value { IfSome result (λ access. accessed self.now address (size_of size) ≡ Some access) }
        ensures small { IfSome result (λ access. access.value < 256 ^ size_of size) }
    {
        if let Some(access) = self.stack.near(address, size) {
            return Some(access);
        }
        if let Some(access) = self.slots.near(address, size) {
            return Some(access);
        }
        let part = segment_at(&self.segments.parts, hint)?;
        if spans(part, address, size.bytes()) {
            Some(access_in(part, address, size))
        } else {
            None
        }
    }

    // The word that can be executed, if the segment at the hint has it.
    #[inline(always)]
    fn code_near(&self, hint: usize, address: u64) -> Option<u32>
        ensures { IfSome result (λ word. fetched self.now address ≡ Some word) }
    {
        let part = segment_at(&self.segments.parts, hint)?;
        if part.exec && spans(part, address, 4) {
            Some(word_at(&part.bytes, (address - part.address) as usize))
        } else {
            None
        }
    }

    // The access to one byte.
    fn byte(&self, address: u64) -> Option<Access>
        ensures value { result ≡ byte_accessed self.now address }
        ensures small { IfSome result (λ access. access.value < 2 ^ 8) }
    {
        if self.slots.covers(address) {
            return Some(self.slots.byte(address));
        }
        if self.stack.covers(address) {
            return Some(self.stack.byte(address));
        }
        let part = first_in(&self.segments.parts, address)?;
        Some(access_in(part, address, Size::Byte))
    }

    // The same of two, four and eight bytes, each of which may lie in another part.
    fn half(&self, address: u64) -> Option<Access>
        requires { address + 2 ≤ 2 ^ 64 }
        ensures value { result ≡ accessed self.now address 2 }
        ensures small { IfSome result (λ access. access.value < 2 ^ 16) }
    {
        joined(self.byte(address), self.byte(address + 1), 0x100)
    }

    fn word(&self, address: u64) -> Option<Access>
        requires { address + 4 ≤ 2 ^ 64 }
        ensures value { result ≡ accessed self.now address 4 }
        ensures small { IfSome result (λ access. access.value < 2 ^ 32) }
    {
        joined(self.half(address), self.half(address + 2), 0x1_0000)
    }

    fn double(&self, address: u64) -> Option<Access>
        requires { address + 8 ≤ 2 ^ 64 }
        ensures { result ≡ accessed self.now address 8 }
    {
        joined(self.word(address), self.word(address + 4), 0x1_0000_0000)
    }

    // The access, whatever parts its bytes lie in.
    #[cold]
    fn gathered(&self, address: u64, size: Size) -> Option<Access>
        requires { address + size_of size ≤ 2 ^ 64 }
        ensures value { result ≡ accessed self.now address (size_of size) }
        ensures small { IfSome result (λ access. access.value < 256 ^ size_of size) }
    {
        match size {
            Size::Byte => self.byte(address),
            Size::Half => self.half(address),
            Size::Word => self.word(address),
            Size::Double => self.double(address),
        }
    }
}

// The code of an access, where it may be executed.
fn code_of(access: Option<Access>) -> Option<u32>
    requires { IfSome access (λ access. access.value < 2 ^ 32) }
    ensures { result ≡ option_and_then (λ access. if access.exec then Some access.value else None) access }
{
    let access = access?;
    if access.exec {
        Some(access.value as u32)
    } else {
        None
    }
}

impl Memory {
    // What stands at an address, without a look at what served last.
    #[cold]
    fn code_anywhere(&self, address: u64) -> Option<u32>
        requires { address + 4 ≤ 2 ^ 64 }
        ensures { result ≡ fetched self.now address }
    {
        code_of(self.word(address))
    }

    #[cold]
    fn index_of(&self, address: u64) -> usize {
        index_in(&self.segments.parts, address)
    }

    /// The word at an address, where each of its four bytes may be executed, for one who only looks.
    pub fn code_at(&self, address: u64) -> Option<u32>
        requires { address + 4 ≤ 2 ^ 64 }
        ensures { result ≡ fetched self.now address }
    {
        let word = self.code_near(self.last_code, address);
        if word.is_some() {
            return word;
        }
        self.code_anywhere(address)
    }

    /// The word at an address, where each of its four bytes may be executed.
    #[inline(always)]
    pub fn fetch(&mut self, address: u64) -> Option<u32>
        requires { address + 4 ≤ 2 ^ 64 }
        ensures value { result ≡ fetched self.old address }
        ensures same { self.new ≡ self.old }
    {
        let word = self.code_near(self.last_code, address);
        if word.is_some() {
            return word;
        }
        self.last_code = self.index_of(address);
        let word = self.code_near(self.last_code, address);
        if word.is_some() {
            return word;
        }
        self.code_anywhere(address)
    }

    /// What stands at an address, where there is a byte at each place.
    pub fn access(&self, address: u64, size: Size) -> Option<Access>
        requires { address + size_of size ≤ 2 ^ 64 }
        ensures value { result ≡ accessed self.now address (size_of size) }
        ensures small { IfSome result (λ access. access.value < 256 ^ size_of size) }
    {
        let access = self.near(self.last_data, address, size);
        if access.is_some() {
            access
        } else {
            self.gathered(address, size)
        }
    }

    /// The same, which remembers what served.
    #[inline(always)]
    pub fn access_next(&mut self, address: u64, size: Size) -> Option<Access>
        requires { address + size_of size ≤ 2 ^ 64 }
        ensures value { result ≡ accessed self.old address (size_of size) }
        ensures small { IfSome result (λ access. access.value < 256 ^ size_of size) }
        ensures same { self.new ≡ self.old }
    {
        let access = self.near(self.last_data, address, size);
        if access.is_some() {
            return access;
        }
        self.last_data = self.index_of(address);
        self.access(address, size)
    }

    // Writes the low bytes of a value, if one of the slots, the stack and the segment at the hint
    // has the places.
    #[inline(always)]
    fn put_near(&mut self, hint: usize, address: u64, size: Size, value: u64) -> bool
        ensures put { OnTrue result (self.new ≡ with_value self.old address (size_of size) value) }
        ensures same { OnFalse result (self.new ≡ self.old) }
    {
        let length = size.bytes();
        if self.stack.spans(address, length) {
            self.stack.put(address, size, value);
            return true;
        }
        if self.slots.spans(address, length) {
            self.slots.put(address, size, value);
            return true;
        }
        if segment_spans(&self.segments.parts, hint, address, length) {
            put_in_segment(&mut self.segments, hint, address, size, value);
            return true;
        }
        false
    }

    // Writes a byte, where there is a place for it.
    #[cold]
    fn put_byte(&mut self, address: u64, value: u64)
        ensures { self.new ≡ with_value self.old address 1 value }
    {
        if self.slots.covers(address) {
            self.slots.put(address, Size::Byte, value);
            return;
        }
        if self.stack.covers(address) {
            self.stack.put(address, Size::Byte, value);
            return;
        }
        match position_in(&self.segments.parts, address) {
            Some(i) => put_in_segment(&mut self.segments, i, address, Size::Byte, value),
            None => {}
        }
    }

    /// Writes the low bytes of a value, the lowest first, where there are places for them.
    #[inline(always)]
    pub fn put(&mut self, address: u64, size: Size, value: u64)
        requires { address + size_of size ≤ 2 ^ 64 }
        ensures { self.new ≡ with_value self.old address (size_of size) value }
    {
        if self.put_near(self.last_data, address, size, value) {
            return;
        }
        let mut rest = value;
        for k in 0..size.bytes() {
            self.put_byte(address + k, rest);
            rest /= 0x100;
        }
    }
}

impl Memory {
    /// These segments, with 4 MiB of exception slots and 16 MiB of stack beside them.
    pub fn new(alloc: Global, segments: Segments) -> Result<Memory, NoMemory>
        requires { AreBelow 0x60000000 (extents_of segments.parts.items) }
        ensures { IfOk result (λ memory. memory ≡ zero_part 0x60000000 0x400000 ∷ zero_part 0x70000000 0x1000000 ∷ map part_of segments.parts.items) }
    {
        Ok(Memory {
            segments,
            slots: Slots::new(alloc)?,
            stack: Stack::new(alloc)?,
            last_code: 0,
            last_data: 0,
        })
    }

    /// The segments that it was made of, with their bytes as they are now.
    pub fn tables(&self) -> &Segments
        ensures { drop 2 self.now ≡ map part_of result.now.parts.items }
    {
        &self.segments
    }
}
