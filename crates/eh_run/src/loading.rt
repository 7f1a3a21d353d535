// Loading.
ghost use Rattle.std.specs.Prelude.{◌≡◌, IfOk};
ghost use Rattle.elf_image.specs.Runnable.{runnable};
ghost use Rattle.eh_run.specs.Lasts.{TablesLast};
ghost use Rattle.eh_run.specs.Loads.{Loads};

use crate::loaded::Loaded;
use crate::written::written_refusal;
use cxa_runtime::Runtime;
use elf_image::ImageError;
use rv64_machine::Machine;
use std::alloc::Global;
use table_check::read_image;

/// The image in a file, ready to run, or the first of its refusals (docs/TABLES.md): those of the
/// file, of the header and the frames, of each exception table in the order of its function's region,
/// and `TableWritable`; or memory ran out.
pub fn load(alloc: Global, bytes: &[u8]) -> Result<Loaded, ImageError>
    ensures loads { Loads result (runnable bytes.now) }
    ensures lasts { IfOk result TablesLast }
{
    let image = read_image(alloc, bytes, true)?;
    let elf = image.elf;
    if let Some(refusal) = written_refusal(&elf.segments, elf.frame_header, &image.order) {
        return Err(refusal.into());
    }
    let Some(places) = elf.runtime else {
        unreachable!()
    };
    let mut machine = Machine::new(alloc, elf.segments)?;
    machine.set_pc(elf.entry);
    Ok(Loaded {
        runtime: Runtime::new(alloc, machine, image.frames, places)?,
        frame_header: elf.frame_header,
    })
}
