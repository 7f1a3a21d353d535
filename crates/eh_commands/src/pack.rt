// The command `pack`: an image with shorter exception tables is stored.
ghost use Rattle.std.specs.Prelude.{[]};
ghost use Rattle.eh_outer.specs.Sink.{Puts};
ghost use Rattle.lsda_pack.specs.Counted.{packing_seen};
ghost use Rattle.lsda_pack.specs.Line.{packing_line};
ghost use Rattle.eh_commands.specs.File.{NamesRefusal};
ghost use Rattle.eh_commands.specs.Pack.{PackCause, PackEnds, PackedEnds};
ghost use Rattle.eh_commands.specs.Question.{asked_by};

use crate::file::{Ended, Question, read};
use crate::image::IMAGE_LIMIT;
use crate::line::push;
use crate::status::Status;
use arrayvec::ArrayString;
use eh_outer::{Sink, SinkError, Store, StoreError};
use itoa::Buffer;
use lsda_pack::{Packed, pack_image};
use std::alloc::Global;

// Puts how much was packed, in one line.
fn put_packing<Out: Sink>(out: &mut Out, packed: &Packed) -> Result<(), SinkError>
    ensures { Puts (packing_line (packing_seen packed.now)) (Out.view out.old) (Out.view out.new) result }
{
    let mut buffer = Buffer::new();
    let mut line: ArrayString<256> = ArrayString::new();
    push(&mut line, "packed ");
    push(&mut line, buffer.format(packed.packed));
    push(&mut line, " of ");
    push(&mut line, buffer.format(packed.tables));
    push(&mut line, " tables, ");
    push(&mut line, buffer.format(packed.saved));
    push(&mut line, " bytes saved\n");
    out.put(line.as_bytes())
}

// Stores a packed image, and then prints how much was packed.
fn store_packed<St: Store, Out: Sink>(
    alloc: Global,
    packed: &Packed,
    name: &str,
    store: &mut St,
    out: &mut Out,
) -> Status
    ensures { PackedEnds (packing_seen packed.now) name.now (St.view store.old) (St.view store.new) (Out.view out.old) (Out.view out.new) result }
{
    match store.write_all(alloc, name, packed.bytes.as_slice()) {
        Ok(()) => match put_packing(out, packed) {
            Ok(()) => Status::Done,
            Err(SinkError::Failed) => Status::WriteFault,
        },
        Err(StoreError::Failed) => Status::WriteFault,
        Err(StoreError::TooLong(_)) => unreachable!(),
        Err(StoreError::NoMemory) => Status::NoMemory,
    }
}

// Packs an image, stores it, and prints how much was packed.
fn pack_bytes<St: Store, Out: Sink>(
    alloc: Global,
    image: &[u8],
    name: &str,
    store: &mut St,
    out: &mut Out,
) -> Status
    ensures { PackEnds image.now name.now (St.view store.old) (St.view store.new) (Out.view out.old) (Out.view out.new) result }
{
    match pack_image(alloc, image) {
        Err(error) => Status::from(error),
        Ok(packed) => store_packed(alloc, &packed, name, store, out),
    }
}

/// Reads an image, packs its exception tables, stores what comes of it, and prints how much was packed.
pub fn pack_file<'a, St: Store, Out: Sink>(
    alloc: Global,
    question: Question<'a>,
    store: &mut St,
    out: &mut Out,
) -> Ended<'a>
    ensures cause { PackCause (asked_by question.entry []) (St.view store.old) (St.view store.new) (Out.view out.old) (Out.view out.new) result.status }
    ensures name { NamesRefusal result.status result.file.now (St.view store.new) }
{
    match read(alloc, question.source, IMAGE_LIMIT, store) {
        Err(status) => Ended {
            status,
            file: question.source,
        },
        Ok(image) => Ended {
            status: pack_bytes(alloc, image.as_slice(), question.image, store, out),
            file: "",
        },
    }
}
