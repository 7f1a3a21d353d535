// Whether the exception tables can be read.
ghost use Rattle.std.specs.Prelude.{◌≡◌, ◌+◌, ◌<◌, ◌^◌, is_ok};
ghost use Rattle.std.specs.List.{list_all};
ghost use Rattle.eh_bytes.specs.Memory.{memory_of};
ghost use Rattle.table_forms.specs.Lsda.{lsda};
ghost use Rattle.raise_core.specs.Reads.{is_readable, are_readable};

use eh_bytes::Segments;
use frame_read::{Fde, Frames};
use lsda_read::Lsda;
use rv64_machine::Machine;

fn is_read(memory: &Segments, fde: &Fde) -> bool
    requires { fde.now.region.start + fde.now.region.length < 2 ^ 64 }
    ensures { result ≡ is_ok (lsda (memory_of memory.now) fde.now.lsda fde.now.region) }
{
    match Lsda::read_at(memory, fde.lsda, fde.region) {
        Err(_) => false,
        Ok(_) => true,
    }
}

// The exception table that an FDE names, if any.
fn is_readable(memory: &Segments, fde: &Fde) -> bool
    ensures { result ≡ is_readable (memory_of memory.now) fde.now }
{
    fde.lsda == 0 || (fde.region.length <= u64::MAX - fde.region.start && is_read(memory, fde))
}

fn all_are_readable(memory: &Segments, fdes: &[Fde]) -> bool
    ensures { result ≡ list_all (is_readable (memory_of memory.now)) fdes.now }
{
    fdes.iter().all(|fde| is_readable(memory, fde))
}

/// Whether each exception table that the frames name can be read from the machine's tables, for a
/// region that ends in the address space. Takes no memory.
pub fn tables_are_readable(machine: &Machine, frames: &Frames) -> bool
    ensures { result ≡ are_readable machine.now frames.now }
{
    all_are_readable(machine.tables(), frames.fdes())
}
