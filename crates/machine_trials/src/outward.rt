// Frames outward of one frame, by hand from DWARF 5, 6.4.4 and a worked frame table.
use eh_bytes::{Segment, Segments};
use frame_read::read_frames;
use frame_walk::{FaultKind, Frame, Walk, step_out};
use rv64_machine::Machine;
use std::alloc::Global;
use std::test::Fail;

// At 0x10000 the instruction sd x5,0(x6); from 0x100b0 on a header, a CIE, and the FDE of 36 bytes
// from 0x1010c on: the CFA is x2 + 0 and no register is saved, and from 0x10110 on it is x2 + 16,
// and x1 is saved 8 bytes below it.
static STORE: &[u8] = b"\x23\x30\x53\0";

static WORKED: &[u8] = b"\x01\x1b\x03\x3b\x10\0\0\0\x01\0\0\0\x5c\0\0\0\x2c\0\0\0\
\x14\0\0\0\0\0\0\0\x01zLR\0\x04\x78\x01\x02\x1b\x1b\x0c\x02\0\0\0\
\x18\0\0\0\x1c\0\0\0\x28\0\0\0\x24\0\0\0\x04\x0f\0\0\0\x41\x0e\x10\x81\x01\0\0\
\0\0\0\0";
// The same, but from 0x10110 on x1 has no value in the frame outward.
static OUTERMOST: &[u8] = b"\x01\x1b\x03\x3b\x10\0\0\0\x01\0\0\0\x5c\0\0\0\x2c\0\0\0\
\x14\0\0\0\0\0\0\0\x01zLR\0\x04\x78\x01\x02\x1b\x1b\x0c\x02\0\0\0\
\x18\0\0\0\x1c\0\0\0\x28\0\0\0\x24\0\0\0\x04\x0f\0\0\0\x41\x07\x01\0\0\0\0\
\0\0\0\0";

const HEADER: u64 = 0x1_00b0;

const SAVED: u64 = 0xa_bcd0;

const RETURNS: u64 = 0x1_2344;

// A machine with these tables that has stored a word at each of these addresses.
fn machine_of(alloc: Global, tables: &[u8], stored_at: &[u64]) -> Result<Machine, Fail> {
    let mut bytes = STORE.to_vec(alloc)?;
    bytes.resize(0xb0, 0)?;
    bytes.extend_from_slice(tables)?;
    // A new machine wants its segments below a limit.
    bytes.truncate(4096);
    let mut parts = Vec::new(alloc);
    parts.push(Segment {
        address: 0x1_0000,
        bytes,
        file_at: 0,
        write: false,
        exec: true,
    })?;
    let mut machine = Machine::new(alloc, Segments { parts })?;
    machine.set_reg(5, SAVED);
    for address in stored_at {
        machine.set_pc(0x1_0000);
        machine.set_reg(6, *address);
        machine.step();
    }
    Ok(machine)
}

// The frame outward of one, by the tables of the machine.
fn outward(alloc: Global, machine: &Machine, frame: &Frame) -> Option<Walk> {
    match read_frames(alloc, machine.tables(), HEADER) {
        Err(_) => None,
        Ok(frames) => Some(step_out(machine, &frames, frame)),
    }
}

// Registers that differ, with the return address in x1.
fn registers(x1: u64, x2: u64) -> [u64; 64] {
    let mut regs = [0; 64];
    for (number, register) in regs.iter_mut().enumerate() {
        *register = (number as u64).wrapping_mul(0x101);
    }
    regs[1] = x1;
    regs[2] = x2;
    regs
}

// What is outward: a frame whose caller saved nothing, one whose caller saved x1, no frame, or a
// fault.
#[derive(Clone, Copy, Debug)]
enum Want {
    Kept(u64),
    Loaded(u64),
    End,
    Broken,
}

fn walk(want: Want) -> Walk {
    let (cfa, x1) = match want {
        Want::Kept(cfa) => (cfa, RETURNS),
        Want::Loaded(cfa) => (cfa, SAVED),
        Want::End => return Walk::EndOfStack,
        Want::Broken => return Walk::Fault(FaultKind::Walk),
    };
    Walk::Next(Frame {
        pc: x1,
        cfa,
        regs: registers(x1, cfa),
        top: false,
        signal: false,
    })
}

// A frame by its pc, x2 and, where it is not the top one, the CFA of the frame before; whether a
// signal interrupted it.
static WALKS: &[(u64, u64, Option<u64>, bool, Want)] = &[
    (0x1_010c, 0x70ff_0000, None, false, Want::End),
    (0x1_010c, 0x70ff_0000, None, true, Want::Kept(0x70ff_0000)),
    (0x1_0110, 0x70ff_0000, None, false, Want::Kept(0x70ff_0000)),
    (0x1_0110, 0x70ff_0000, None, true, Want::Loaded(0x70ff_0010)),
    (
        0x1_0111,
        0x70ff_0000,
        None,
        false,
        Want::Loaded(0x70ff_0010),
    ),
    (
        0x1_0130,
        0x70ff_0000,
        None,
        false,
        Want::Loaded(0x70ff_0010),
    ),
    (0x1_0131, 0x70ff_0000, None, false, Want::End),
    (0, 0x70ff_0000, None, false, Want::End),
    // The CFA lies in the stack, its ends included, and the word below it too.
    (0x1_0110, 0x7000_0000, None, false, Want::Kept(0x7000_0000)),
    (0x1_0110, 0x6fff_ffff, None, false, Want::Broken),
    (0x1_0110, 0x7100_0000, None, false, Want::Kept(0x7100_0000)),
    (0x1_0110, 0x7100_0001, None, false, Want::Broken),
    (
        0x1_0111,
        0x6fff_fff8,
        None,
        false,
        Want::Loaded(0x7000_0008),
    ),
    (0x1_0111, 0x6fff_fff0, None, false, Want::Broken),
    (
        0x1_0111,
        0x70ff_fff0,
        None,
        false,
        Want::Loaded(0x7100_0000),
    ),
    (0x1_0111, 0x70ff_0004, None, false, Want::Broken),
    (0x1_0111, 0xffff_ffff_ffff_fff0, None, false, Want::Broken),
    // It rises from frame to frame.
    (
        0x1_0111,
        0x70ff_0000,
        Some(0x70ff_0010),
        false,
        Want::Broken,
    ),
    (
        0x1_0111,
        0x70ff_0000,
        Some(0x70ff_0018),
        false,
        Want::Broken,
    ),
    (
        0x1_0111,
        0x70ff_0000,
        Some(0x70ff_0008),
        false,
        Want::Loaded(0x70ff_0010),
    ),
];

fn frame(pc: u64, x2: u64, before: Option<u64>, signal: bool) -> Frame {
    Frame {
        pc,
        cfa: before.unwrap_or(0),
        regs: registers(RETURNS, x2),
        top: before.is_none(),
        signal,
    }
}

#[test]
fn one_frame_outward(rt: HostRuntime) -> Result<(), Fail> {
    let alloc = rt.alloc();
    let machine = machine_of(alloc, WORKED, &[0x70ff_0008, 0x7000_0000, 0x70ff_fff8])?;
    for (pc, x2, before, signal, want) in WALKS {
        let frame = frame(*pc, *x2, *before, *signal);
        assert_eq!(rt;
            outward(alloc, &machine, &frame),
            Some(walk(*want)),
            "of {pc:x} at {x2:x}"
        );
    }
    Ok(())
}

#[test]
fn the_outermost_frame(rt: HostRuntime) -> Result<(), Fail> {
    let alloc = rt.alloc();
    let machine = machine_of(alloc, OUTERMOST, &[])?;
    let inside = frame(0x1_0110, 0x70ff_0000, None, false);
    assert_eq!(rt;
        outward(alloc, &machine, &inside),
        Some(walk(Want::Kept(0x70ff_0000)))
    );
    // Also where the CFA lies outside the stack.
    for x2 in [0x70ff_0000, 0x1000] {
        let last = frame(0x1_0111, x2, None, false);
        assert_eq!(rt; outward(alloc, &machine, &last), Some(Walk::EndOfStack));
    }
    Ok(())
}
