// The command `compile`: the image of a source is stored.
ghost use Rattle.std.specs.Prelude.{◌≤◌, [], length};
ghost use Rattle.cxx_ast.specs.Checked.{IsChecked};
ghost use Rattle.cxx_ast.specs.View.{checked_of};
ghost use Rattle.eh_commands.specs.Compile.{CompileCause, ImageStored, SourceCompiles};
ghost use Rattle.eh_commands.specs.File.{NamesRefusal, source_limit};
ghost use Rattle.eh_commands.specs.Question.{asked_by};

use crate::file::{Ended, Question, SOURCE_LIMIT, read};
use crate::status::Status;
use cxx_ast::program::Checked;
use cxx_ast::standard::Std;
use cxx_front::checked;
use cxx_image::image_of;
use eh_outer::{Store, StoreError};
use std::alloc::Global;

// Stores the image of a checked program.
fn store_image<St: Store>(alloc: Global, program: &Checked, name: &str, store: &mut St) -> Status
    requires { IsChecked (checked_of program.now) }
    ensures { ImageStored name.now (checked_of program.now) (St.view store.old) (St.view store.new) result }
{
    let Ok(image) = image_of(alloc, program) else {
        return Status::NoMemory;
    };
    match store.write_all(alloc, name, image.as_slice()) {
        Ok(()) => Status::Done,
        Err(StoreError::Failed) => Status::WriteFault,
        Err(StoreError::TooLong(_)) => unreachable!(),
        Err(StoreError::NoMemory) => Status::NoMemory,
    }
}

// Compiles a source, and stores its image.
fn compile_source<St: Store>(
    alloc: Global,
    source: &[u8],
    standard: Std,
    name: &str,
    store: &mut St,
) -> Status
    requires { length source.now ≤ source_limit }
    ensures { SourceCompiles standard name.now source.now (St.view store.old) (St.view store.new) result }
{
    match checked(alloc, source, standard) {
        Err(error) => error.into(),
        Ok(program) => store_image(alloc, &program, name, store),
    }
}

/// Reads a source, compiles it, and stores its image.
pub fn compile_file<'a, St: Store>(
    alloc: Global,
    question: Question<'a>,
    store: &mut St,
) -> Ended<'a>
    ensures cause { CompileCause (asked_by question.entry []) (St.view store.old) (St.view store.new) result.status }
    ensures name { NamesRefusal result.status result.file.now (St.view store.new) }
{
    match read(alloc, question.source, SOURCE_LIMIT, store) {
        Err(status) => Ended {
            status,
            file: question.source,
        },
        Ok(source) => Ended {
            status: compile_source(
                alloc,
                source.as_slice(),
                question.std,
                question.image,
                store,
            ),
            file: "",
        },
    }
}
