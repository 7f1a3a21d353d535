// Images whose tables no program can write.
ghost use Rattle.std.specs.Prelude.{◌≡◌, true, not};
ghost use Rattle.std.specs.List.{list_all};
ghost use Rattle.frame_read.specs.ReadsFrames.{Listing};
ghost use Rattle.raise_core.specs.Reads.{AreTables};
ghost use Rattle.cxa_runtime.specs.Constant.{is_constant};
ghost use Rattle.cxa_runtime.specs.Lasting.{AreLasting};

use eh_bytes::Segment;
use rv64_machine::Machine;

fn all_are_constant(parts: &[Segment]) -> bool
    ensures { result ≡ list_all (λ part. not part.write) parts.now }
{
    parts.iter().all(|part| !part.write)
}

/// Whether no segment that the machine was given can be written. Then what is read of its tables
/// lasts, as `Runtime::new` needs it.
pub fn is_constant(machine: &Machine) -> bool
    ensures constant { result ≡ is_constant machine.now }
    ensures lasts { result ≡ true → (frames : Listing) → AreTables machine.now frames → AreLasting machine.now frames }
{
    all_are_constant(machine.tables().parts.as_slice())
}
