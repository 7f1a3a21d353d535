// A checked program made ready to run.
ghost use Rattle.std.specs.Prelude.{IfOk};
ghost use Rattle.cxx_ast.specs.Checked.{IsChecked};
ghost use Rattle.cxx_ast.specs.View.{checked_of};
ghost use Rattle.eh_commands.specs.RunSource.{IsReady};

use cxx_ast::program::Checked;
use cxx_front::NoMemory;
use cxx_image::image_of;
use eh_run::{Loaded, load};
use elf_image::ImageError;
use std::alloc::Global;

/// Compiles a checked program, and loads its image.
pub fn ready(alloc: Global, program: &Checked) -> Result<Loaded, NoMemory>
    requires { IsChecked (checked_of program.now) }
    ensures { IfOk result (IsReady (checked_of program.now)) }
{
    let image = image_of(alloc, program)?;
    match load(alloc, image.as_slice()) {
        Err(ImageError::Refused { .. }) => unreachable!(),
        Err(ImageError::NoMemory) => Err(NoMemory),
        Ok(loaded) => Ok(loaded),
    }
}
