// The passes from a checked program to its image.
ghost use Rattle.std.specs.Prelude.{◌≡◌, IfOk};
ghost use Rattle.cxx_ast.specs.Checked.{IsChecked};
ghost use Rattle.cxx_ast.specs.View.{checked_of};
ghost use Rattle.cxx_image.specs.Image.{image_for};
ghost use Rattle.image_link.specs.Runs.{RunsUnit};
ghost use Rattle.source_bounds.specs.Compiled.{emitted_for};

use crate::NoMemory;
use class_layout::layout;
use cxx_ast::program::Checked;
use image_link::link_named;
use landing_pads::pads;
use region_ir::regions;
use rv64_emit::emit;
use source_bounds::laws::checked_is_linkable;
use std::alloc::Global;
use symbol_names::symbol_names;

/// The bytes of the image of a checked program: an ELF file that is clean and can be run, the same for the same program, with
/// sections, and symbols of functions, types and globals. A number that does not fit its field is want of memory.
pub fn image_of(alloc: Global, program: &Checked) -> Result<Vec<u8>, NoMemory>
    requires { IsChecked (checked_of program.now) }
    ensures bytes { IfOk result (λ bytes. bytes.items ≡ image_for (checked_of program.now)) }
    ensures runs { IfOk result (λ bytes. RunsUnit (emitted_for (checked_of program.now)) bytes.items) }
{
    checked_is_linkable();
    let layout = layout(alloc, &program.classes)?;
    let regions = regions(alloc, program, &layout)?;
    let unit = pads(alloc, &regions)?;
    let emitted = emit(alloc, &unit)?;
    let names = symbol_names(alloc, program)?;
    link_named(alloc, &emitted, &names)
}
