// The command that prints what becomes of an exception at places of an image.
ghost use Rattle.std.specs.Prelude.{◌≡◌, []};
ghost use Rattle.eh_commands.specs.At.{AtCause, AtEnds, comes_by};
ghost use Rattle.eh_commands.specs.Question.{asked_by};

use crate::file::{Question, read};
use crate::image::IMAGE_LIMIT;
use crate::lines::put_lines;
use crate::status::Status;
use command_line::Raised;
use eh_outer::{Sink, SinkError, Store};
use place_verdicts::{Asked, PlaceError, at_image};
use std::alloc::Global;

impl From<PlaceError> for Status {
    ghost use Rattle.std.specs.Prelude.{◌≡◌};
    ghost use Rattle.eh_commands.specs.At.{status_at};

    ghost from_gives = { λ error status. status ≡ status_at error };

    fn from(error: PlaceError) -> Status {
        match error {
            PlaceError::Image(error) => Status::from(error),
            PlaceError::NoType(address) => Status::ImageRefused {
                number: 89,
                place: address,
                location: 0,
                other: 0,
            },
        }
    }
}

// What comes by, as it is asked for.
fn comes_by(raised: Raised) -> Asked
    ensures { result ≡ comes_by raised }
{
    match raised {
        Raised::Untyped => Asked::Untyped,
        Raised::Typed(address) => Asked::Typed(address),
        Raised::Foreign => Asked::Foreign,
        Raised::Forced => Asked::Forced,
    }
}

// Prints the places of an image.
fn place_bytes<Out: Sink>(
    alloc: Global,
    image: &[u8],
    question: Question<'_>,
    out: &mut Out,
) -> Status
    ensures { AtEnds (asked_by question.entry []) image.now (Out.view out.old) (Out.view out.new) result }
{
    match at_image(alloc, image, comes_by(question.raised), question.places) {
        Err(error) => Status::from(error),
        Ok(text) => match put_lines(out, text.as_slice()) {
            Ok(()) => Status::Done,
            Err(SinkError::Failed) => Status::WriteFault,
        },
    }
}

/// Reads an image, and prints what becomes of what comes by at places of it.
pub fn place_file<St: Store, Out: Sink>(
    alloc: Global,
    question: Question<'_>,
    store: &mut St,
    out: &mut Out,
) -> Status
    ensures cause { AtCause (asked_by question.entry []) (St.view store.old) (St.view store.new) (Out.view out.old) (Out.view out.new) result }
    ensures files { (St.view store.new).files ≡ (St.view store.old).files }
{
    match read(alloc, question.source, IMAGE_LIMIT, store) {
        Ok(image) => place_bytes(alloc, image.as_slice(), question, out),
        Err(status) => status,
    }
}
