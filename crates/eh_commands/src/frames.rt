// The command that compares both forms of the frames of an image.
ghost use Rattle.std.specs.Prelude.{◌≡◌, ◌<◌, ◌^◌, length};
ghost use Rattle.debug_frames.specs.SeenAgreement.{agreement_seen};
ghost use Rattle.eh_commands.specs.Frames.{AgreementEnds, FramesCause, FramesEnds, agreement_status};

use crate::agreement::agreement_lines;
use crate::file::read;
use crate::image::IMAGE_LIMIT;
use crate::lines::put_each;
use crate::status::Status;
use debug_frames::{Agreement, compare_frames};
use eh_outer::{Sink, SinkError, Store};
use std::alloc::Global;

fn status_of(agreement: &Agreement) -> Status
    ensures { result ≡ agreement_status (agreement_seen agreement.now) }
{
    match agreement {
        Agreement::Same(..) => Status::Done,
        Agreement::Differ(..) => Status::Differs,
    }
}

// Prints an agreement.
fn put_agreement<Out: Sink>(alloc: Global, agreement: &Agreement, out: &mut Out) -> Status
    ensures { AgreementEnds (agreement_seen agreement.now) (Out.view out.old) (Out.view out.new) result }
{
    match agreement_lines(alloc, agreement) {
        Err(_) => Status::NoMemory,
        Ok(lines) => match put_each(out, lines.as_slice()) {
            Ok(()) => status_of(agreement),
            Err(SinkError::Failed) => Status::WriteFault,
        },
    }
}

// Compares both forms in an image.
fn compare_bytes<Out: Sink>(alloc: Global, image: &[u8], out: &mut Out) -> Status
    requires { length image.now < 2 ^ 32 }
    ensures { FramesEnds image.now (Out.view out.old) (Out.view out.new) result }
{
    match compare_frames(alloc, image) {
        Err(error) => Status::from(error),
        Ok(agreement) => put_agreement(alloc, &agreement, out),
    }
}

/// Reads an image, and prints whether both forms of its frames say the same of all locations.
pub fn frames_file<St: Store, Out: Sink>(
    alloc: Global,
    name: &str,
    store: &mut St,
    out: &mut Out,
) -> Status
    ensures cause { FramesCause name.now (St.view store.old) (St.view store.new) (Out.view out.old) (Out.view out.new) result }
    ensures files { (St.view store.new).files ≡ (St.view store.old).files }
{
    match read(alloc, name, IMAGE_LIMIT, store) {
        Ok(image) => compare_bytes(alloc, image.as_slice(), out),
        Err(status) => status,
    }
}
