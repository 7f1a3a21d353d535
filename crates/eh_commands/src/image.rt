// The commands that read images.
ghost use Rattle.std.specs.Prelude.{◌≡◌};
ghost use Rattle.eh_commands.specs.Image.{ImageCause, ImageEnds, check_lines, doubt_lines, dump_lines};

use crate::file::read;
use crate::lines::{put_lines, put_summary};
use crate::status::Status;
use eh_outer::{Sink, SinkError, Store};
use elf_image::ImageError;
use image_doubts::doubts_image;
use std::alloc::Global;
use table_check::check_image;
use table_dump::dump_image;

impl From<ImageError> for Status {
    ghost use Rattle.std.specs.Prelude.{◌≡◌};
    ghost use Rattle.eh_commands.specs.Image.{status_of};

    ghost from_gives = { λ error status. status ≡ status_of error };

    fn from(error: ImageError) -> Status {
        match error {
            ImageError::Refused {
                reason,
                place,
                location,
                other,
            } => Status::ImageRefused {
                number: reason.number(),
                place,
                location,
                other,
            },
            ImageError::NoMemory => Status::NoMemory,
        }
    }
}

/// The largest image, in bytes.
pub const IMAGE_LIMIT: u64 = 0x400_0000;

// Counts what an image has.
fn check_bytes<Out: Sink>(alloc: Global, image: &[u8], out: &mut Out) -> Status
    ensures { ImageEnds check_lines image.now (Out.view out.old) (Out.view out.new) result }
{
    match check_image(alloc, image) {
        Err(error) => Status::from(error),
        Ok(summary) => match put_summary(out, &summary) {
            Ok(()) => Status::Done,
            Err(SinkError::Failed) => Status::WriteFault,
        },
    }
}

// Prints the tables of an image.
fn dump_bytes<Out: Sink>(alloc: Global, image: &[u8], out: &mut Out) -> Status
    ensures { ImageEnds dump_lines image.now (Out.view out.old) (Out.view out.new) result }
{
    match dump_image(alloc, image) {
        Err(error) => Status::from(error),
        Ok(text) => match put_lines(out, text.as_slice()) {
            Ok(()) => Status::Done,
            Err(SinkError::Failed) => Status::WriteFault,
        },
    }
}

// Prints what is doubted of an image.
fn doubt_bytes<Out: Sink>(alloc: Global, image: &[u8], out: &mut Out) -> Status
    ensures { ImageEnds doubt_lines image.now (Out.view out.old) (Out.view out.new) result }
{
    match doubts_image(alloc, image) {
        Err(error) => Status::from(error),
        Ok(text) => match put_lines(out, text.as_slice()) {
            Ok(()) => Status::Done,
            Err(SinkError::Failed) => Status::WriteFault,
        },
    }
}

/// Reads an image, and prints how much it has, in one line.
pub fn check_file<St: Store, Out: Sink>(
    alloc: Global,
    name: &str,
    store: &mut St,
    out: &mut Out,
) -> Status
    ensures cause { ImageCause check_lines name.now (St.view store.old) (St.view store.new) (Out.view out.old) (Out.view out.new) result }
    ensures files { (St.view store.new).files ≡ (St.view store.old).files }
{
    match read(alloc, name, IMAGE_LIMIT, store) {
        Ok(image) => check_bytes(alloc, image.as_slice(), out),
        Err(status) => status,
    }
}

/// Reads an image, and prints its tables.
pub fn dump_file<St: Store, Out: Sink>(
    alloc: Global,
    name: &str,
    store: &mut St,
    out: &mut Out,
) -> Status
    ensures cause { ImageCause dump_lines name.now (St.view store.old) (St.view store.new) (Out.view out.old) (Out.view out.new) result }
    ensures files { (St.view store.new).files ≡ (St.view store.old).files }
{
    match read(alloc, name, IMAGE_LIMIT, store) {
        Ok(image) => dump_bytes(alloc, image.as_slice(), out),
        Err(status) => status,
    }
}

/// Reads an image, and prints what is doubted of it.
pub fn doubts_file<St: Store, Out: Sink>(
    alloc: Global,
    name: &str,
    store: &mut St,
    out: &mut Out,
) -> Status
    ensures cause { ImageCause doubt_lines name.now (St.view store.old) (St.view store.new) (Out.view out.old) (Out.view out.new) result }
    ensures files { (St.view store.new).files ≡ (St.view store.old).files }
{
    match read(alloc, name, IMAGE_LIMIT, store) {
        Ok(image) => doubt_bytes(alloc, image.as_slice(), out),
        Err(status) => status,
    }
}
