// Raises in one function and its caller, by hand from the worked frames and exception table of
// docs/TABLES.md.
ghost use Rattle.raise_core.specs.Reads.{AreTables};

use eh_bytes::{Segment, Segments};
use frame_read::{Frames, read_frames};
use frame_walk::FaultKind;
use personality::{Thrown, TypeChain};
use raise_core::{Raised, forced, raise, resume, tables_are_readable};
use rv64_machine::Machine;
use std::alloc::Global;
use std::test::Fail;

// At 0x10000 the instruction sd x5,0(x6). From 0x100b0 on a header, a CIE, and the FDE of 36 bytes
// from 0x1010c on: the CFA is x2 + 0, and from 0x10110 on x2 + 16, with x1 8 bytes below it. Its
// exception table lies at 0x100fc.
static STORE: &[u8] = b"\x23\x30\x53\0";

static FRAMES: &[u8] = b"\x01\x1b\x03\x3b\x10\0\0\0\x01\0\0\0\x5c\0\0\0\x2c\0\0\0\
\x14\0\0\0\0\0\0\0\x01zLR\0\x04\x78\x01\x02\x1b\x1b\x0c\x02\0\0\0\
\x18\0\0\0\x1c\0\0\0\x28\0\0\0\x24\0\0\0\x04\x0f\0\0\0\x41\x0e\x10\x81\x01\0\0\
\0\0\0\0";

// From 0x1011c to 0x10124 a pad at 0x1012c with `catch (...)`.
static HANDLER: &[u8] = b"\xff\x1b\x0d\x01\x04\x10\x08\x20\x01\x01\0\0\0\0\0\0";

// The same behind a site from 0x10114 to 0x1011c without a pad.
static PASSED: &[u8] = b"\xff\x1b\x15\x01\x08\x08\x08\0\0\x10\x08\x20\x01\x01\0\0\0\0\0\0\0\0\0\0";

// The same behind a cleanup at 0x10128 for that site, and one from 0x10124 to 0x1012c without a pad
// behind it.
static CLEANUP: &[u8] =
    b"\xff\x1b\x15\x01\x0c\x08\x08\x1c\0\x10\x08\x20\x01\x18\x08\0\0\x01\0\0\0\0\0\0";

const HEADER: u64 = 0x1_00b0;

const STACK: u64 = 0x70ff_0000;

// A machine with this exception table that has stored a return address where the row of 0x10110
// finds x1, and stands behind a runtime call at a pc.
fn machine_at(alloc: Global, table: &[u8], returns: u64, pc: u64) -> Result<Machine, Fail> {
    let mut bytes = STORE.to_vec(alloc)?;
    bytes.resize(0xb0, 0)?;
    bytes.extend_from_slice(FRAMES)?;
    bytes.extend_from_slice(table)?;
    bytes.resize(0x140, 0)?;
    let mut parts = Vec::new(alloc);
    parts.push(Segment {
        address: 0x1_0000,
        bytes,
        file_at: 0,
        write: false,
        exec: true,
    })?;
    let mut machine = Machine::new(alloc, Segments { parts })?;
    machine.set_reg(5, returns);
    machine.set_reg(6, STACK + 8);
    machine.set_pc(0x1_0000);
    machine.step();
    machine.set_reg(2, STACK);
    machine.set_reg(8, 0x88);
    machine.set_pc(pc);
    Ok(machine)
}

fn native() -> Thrown {
    let mut records = [0; 64];
    records[0] = 0x500;
    Thrown::Native(TypeChain { records, length: 1 })
}

#[derive(Clone, Copy, Debug)]
enum Call {
    Raise,
    Resume(u64),
    Forced,
}

fn called(machine: &mut Machine, frames: &Frames, call: Call, thrown: &Thrown) -> Raised
    requires { AreTables machine.old frames.now }
{
    match call {
        Call::Raise => raise(machine, frames, thrown),
        Call::Resume(target) => resume(machine, frames, thrown, target),
        Call::Forced => forced(machine, frames),
    }
}

// The answer of a call, where frames and tables can be read.
fn answer(alloc: Global, machine: &mut Machine, call: Call, thrown: &Thrown) -> Option<Raised> {
    match read_frames(alloc, machine.tables(), HEADER) {
        Err(_) => None,
        Ok(frames) => {
            if tables_are_readable(machine, &frames) {
                Some(called(machine, &frames, call, thrown))
            } else {
                None
            }
        }
    }
}

#[test]
fn one_function(rt: HostRuntime) -> Result<(), Fail> {
    let alloc = rt.alloc();
    let handled = Raised::Install(0x1_012c, 1, STACK + 16, 0x1_00fc);
    let fault = Raised::Fault(FaultKind::Walk);
    let resumed = Raised::Install(0x1_012c, 1, STACK + 16, 0);
    let rows = [
        (0x1_0120, Call::Raise, native(), handled),
        (0x1_0120, Call::Raise, Thrown::Foreign, handled),
        (0x1_0118, Call::Raise, native(), Raised::Terminate),
        (0x1_0140, Call::Raise, native(), Raised::NoHandler),
        (0x1_0120, Call::Resume(STACK), native(), fault),
        (0x1_0120, Call::Resume(STACK + 16), native(), resumed),
    ];
    let mut machine = machine_at(alloc, HANDLER, 0x1234, 0)?;
    for (pc, call, thrown, wanted) in rows {
        machine.set_pc(pc);
        let found = answer(alloc, &mut machine, call, &thrown);
        assert_eq!(rt; found, Some(wanted), "{call:?} of {thrown:?} at {pc:x}");
        let entered = matches!(wanted, Raised::Install(..));
        assert_eq!(rt; machine.pc(), if entered { 0x1_012c } else { pc });
        assert_eq!(rt; machine.reg(2), STACK);
        assert_eq!(rt; machine.reg(8), 0x88);
    }
    Ok(())
}

// The function calls itself: the inner frame passes the exception on, since its place has no pad,
// and the outer one handles it. Its x2 is the inner frame's canonical frame address.
#[test]
fn a_caller(rt: HostRuntime) -> Result<(), Fail> {
    let alloc = rt.alloc();
    let mut machine = machine_at(alloc, PASSED, 0x1_0120, 0x1_0118)?;
    let handled = Raised::Install(0x1_012c, 1, STACK + 32, 0x1_00fc);
    let found = answer(alloc, &mut machine, Call::Raise, &native());
    assert_eq!(rt; found, Some(handled));
    assert_eq!(rt; machine.reg(2), STACK + 16);
    assert_eq!(rt; machine.reg(1), 0x1_0120);
    Ok(())
}

// Control enters the inner frame's cleanup first, and by the call that resumes the outer frame's
// handler. A forced unwind passes by the handler.
#[test]
fn a_cleanup_on_the_way(rt: HostRuntime) -> Result<(), Fail> {
    let alloc = rt.alloc();
    let mut machine = machine_at(alloc, CLEANUP, 0x1_0120, 0x1_0118)?;
    let target = STACK + 32;
    let rows = [
        (Call::Forced, Raised::Install(0x1_0128, 0, 0, 0), 0),
        (Call::Forced, Raised::NoHandler, 0),
        (
            Call::Raise,
            Raised::Install(0x1_0128, 0, target, 0x1_00fc),
            0,
        ),
        (
            Call::Resume(target),
            Raised::Install(0x1_012c, 1, target, 0),
            16,
        ),
    ];
    for (call, wanted, above) in rows {
        if let Call::Raise = call {
            machine.set_pc(0x1_0118);
        }
        let found = answer(alloc, &mut machine, call, &native());
        assert_eq!(rt; found, Some(wanted), "{call:?}");
        assert_eq!(rt; machine.reg(2), STACK + above);
        if let Raised::Install(pad, _, _, _) = wanted {
            assert_eq!(rt; machine.pc(), pad);
        }
    }
    Ok(())
}
