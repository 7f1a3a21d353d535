// Runs of images.
ghost use Rattle.std.specs.Prelude.{◌≡◌, ◌&&◌, IfOk, IfSome};
ghost use Rattle.raise_core.specs.Reads.{are_readable};
ghost use Rattle.cxa_runtime.specs.Constant.{is_constant};
ghost use Rattle.cxa_runtime.specs.Lasting.{AreLasting};

use crate::image::{BAD_EXCEPTION, Code, HEADER, STUB, bytes_of};
use crate::op::START;
use cxa_runtime::{End, Runtime, Turn, is_constant};
use eh_bytes::{RuntimeRecord, Segment, Segments};
use eh_outer::{MemSink, Once, Reply};
use foreign_host::Host;
use frame_read::{Frames, read_frames};
use raise_core::tables_are_readable;
use rv64_machine::Machine;
use std::alloc::{AllocError, Global};

/// The memory from `START` on, where a run begins, the header of the frames, and the places of the
/// terminate stub and of the type record of std::bad_exception.
#[derive(Drop)]
pub struct Image {
    pub bytes: Vec<u8>,
    pub entry: u64,
    pub header: u64,
    pub places: RuntimeRecord,
}

fn machine_of(alloc: Global, image: Image) -> Result<Machine, AllocError> {
    let mut bytes = image.bytes;
    bytes.resize(0x5000, 0)?;
    let mut parts = Vec::new(alloc);
    parts.push(Segment {
        address: START,
        bytes,
        file_at: 0,
        write: false,
        exec: true,
    })?;
    let mut machine = Machine::new(alloc, Segments { parts })?;
    machine.set_pc(image.entry);
    Ok(machine)
}

// Whether the tables can be read, and no program writes them.
fn tables_last(machine: &Machine, frames: &Frames) -> bool
    ensures { result ≡ (is_constant machine.now && are_readable machine.now frames.now) }
{
    is_constant(machine) && tables_are_readable(machine, frames)
}

// The frames of a machine whose tables can be read.
fn frames_of(alloc: Global, machine: &Machine, header: u64) -> Option<Frames>
    ensures { IfSome result (λ frames. AreLasting machine.now frames) }
{
    match read_frames(alloc, machine.tables(), header) {
        Err(_) => None,
        Ok(frames) => {
            if tables_last(machine, &frames) {
                Some(frames)
            } else {
                None
            }
        }
    }
}

fn runtime_of(alloc: Global, image: Image) -> Result<Option<Runtime>, AllocError>
    ensures { IfOk result (λ made. IfSome made (λ runtime. runtime.turns ≡ 0)) }
{
    let places = image.places;
    let header = image.header;
    let machine = machine_of(alloc, image)?;
    match frames_of(alloc, &machine, header) {
        None => Ok(None),
        Some(frames) => Ok(Some(Runtime::new(alloc, machine, frames, places)?)),
    }
}

// How a run on an input ends, or `On` where a thousand turns have not ended it.
fn run(runtime: &mut Runtime, input: &[u8], host: &mut Host<Once>, sink: &mut MemSink) -> Turn
    requires { runtime.old.turns ≡ 0 }
{
    for _ in 0..1000u32 {
        let turn = runtime.turn(input, host, true, sink);
        if turn != Turn::On {
            return turn;
        }
    }
    Turn::On
}

// A host of one module, which raises an exception with the token 7.
fn host_of(alloc: Global) -> Result<Host<Once>, AllocError> {
    let replies = [Reply::Raise(7)].to_vec(alloc)?;
    let mut modules = Vec::new(alloc);
    modules.push(Once::new(alloc, replies)?)?;
    Ok(Host::new(modules))
}

// Whether a run from the first turn on ends so, and writes these lines.
fn goes_as(
    alloc: Global,
    runtime: &mut Runtime,
    input: &str,
    end: End,
    lines: &str,
) -> Result<bool, AllocError>
    requires { runtime.old.turns ≡ 0 }
{
    let mut sink = MemSink::new(alloc, 0x200, Vec::new(alloc))?;
    let mut host = host_of(alloc)?;
    let turn = run(runtime, input.as_bytes(), &mut host, &mut sink);
    host.close();
    Ok(turn == Turn::Ended(end) && sink.bytes() == lines.as_bytes())
}

/// Whether a run of an image on an input ends so, and writes these lines; its one module raises an
/// exception with the token 7.
pub fn image_runs_as(
    alloc: Global,
    image: Image,
    input: &str,
    end: End,
    lines: &str,
) -> Result<bool, AllocError> {
    match runtime_of(alloc, image)? {
        None => Ok(false),
        Some(mut runtime) => goes_as(alloc, &mut runtime, input, end, lines),
    }
}

/// Whether a run of these functions, on no input, ends so, and writes these lines.
pub fn runs_as(alloc: Global, code: &Code, end: End, lines: &str) -> Result<bool, AllocError> {
    let image = Image {
        bytes: bytes_of(alloc, code)?,
        entry: START,
        header: HEADER,
        places: RuntimeRecord {
            terminate: STUB,
            bad_exception: BAD_EXCEPTION,
        },
    };
    image_runs_as(alloc, image, "", end, lines)
}
