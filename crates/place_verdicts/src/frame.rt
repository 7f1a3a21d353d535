// A frame: its region, the row of its place, the site with its filters, and the verdict.
ghost use Rattle.std.specs.Prelude.{◌≡◌, ◌++◌, true, OnOk, IfOk};
ghost use Rattle.eh_bytes.specs.Memory.{memory_of};
ghost use Rattle.table_forms.specs.Fde.{is_in};
ghost use Rattle.table_forms.specs.Fde as forms;
ghost use Rattle.table_forms.specs.Verdict.{look_up_place, verdict};
ghost use Rattle.elf_image.specs.Clean.{Function};
ghost use Rattle.table_dump.specs.Seen.{IsFunction};
ghost use Rattle.table_dump.specs.Entry.{IsEntry};
ghost use Rattle.table_dump.specs.Rows.{row_text};
ghost use Rattle.personality.specs.Seen.{thrown_of};
ghost use Rattle.place_verdicts.specs.Frame.{verdict_line, pad_text, frame_text};

use crate::function::table_of;
use crate::place::look_up_place;
use crate::site::put_sites;
use eh_bytes::Segments;
use frame_read::{Fde, Frames};
use personality::{FrameView, Thrown, personality};
use std::alloc::{AllocError, Global};
use table_dump::row::{put_frame, put_row};
use table_dump::text::put_text;
use table_forms::Verdict;

/// A pad that is entered, with its selector.
pub fn put_pad(alloc: Global, out: &mut Vec<u8>, pad: u64, selector: i64) -> Result<(), AllocError>
    ensures { OnOk result (out.new.items ≡ out.old.items ++ pad_text pad selector) }
{
    let text = format!(in alloc; " pad 0x{pad:x} selector {selector}\n")?;
    put_text(out, text.as_str())
}

fn put_verdict(alloc: Global, out: &mut Vec<u8>, verdict: Verdict) -> Result<(), AllocError>
    ensures { OnOk result (out.new.items ≡ out.old.items ++ verdict_line verdict) }
{
    match verdict {
        Verdict::Nothing => put_text(out, "  nothing\n"),
        Verdict::Terminate => put_text(out, "  terminates\n"),
        Verdict::Cleanup(pad) => {
            put_text(out, "  cleanup")?;
            put_pad(alloc, out, pad, 0)
        }
        Verdict::Handler(pad, selector) => {
            put_text(out, "  handler")?;
            put_pad(alloc, out, pad, selector)
        }
        Verdict::Spec(pad, selector) => {
            put_text(out, "  specification")?;
            put_pad(alloc, out, pad, selector)
        }
    }
}

// The row of a place in the region of an FDE of the list.
fn put_row_at(
    alloc: Global,
    out: &mut Vec<u8>,
    memory: &Segments,
    frames: &Frames,
    fde: &Fde,
    place: u64,
) -> Result<(), AllocError>
    requires entry { (f : forms.Fde) × IsEntry (memory_of memory.now) frames.now fde.now f }
    requires inside { is_in fde.now.region place ≡ true }
    ensures { OnOk result ((f : forms.Fde) → IsEntry (memory_of memory.now) frames.now fde.now f → out.new.items ≡ out.old.items ++ row_text f place) }
{
    let row = frames.row_at(memory, fde, place);
    put_row(alloc, out, place, row)?;
    Ok(())
}

/// The lines of a frame that goes on at `pc`, and its verdict.
pub fn put_frame_at(
    alloc: Global,
    out: &mut Vec<u8>,
    memory: &Segments,
    frames: &Frames,
    fde: &Fde,
    thrown: &Thrown,
    pc: u64,
    signal: bool,
) -> Result<Verdict, AllocError>
    requires function { (g : Function) × IsFunction (memory_of memory.now) frames.now fde.now g }
    requires inside { is_in fde.now.region (look_up_place pc signal) ≡ true }
    ensures text { IfOk result (λ v. (g : Function) → IsFunction (memory_of memory.now) frames.now fde.now g → out.new.items ≡ out.old.items ++ frame_text (thrown_of thrown.now) pc signal g) }
    ensures verdict { IfOk result (λ v. (g : Function) → IsFunction (memory_of memory.now) frames.now fde.now g → v ≡ verdict g.table pc signal (thrown_of thrown.now)) }
{
    let place = look_up_place(pc, signal);
    put_frame(alloc, out, fde.region.start, fde.region.length)?;
    put_row_at(alloc, out, memory, frames, fde, place)?;
    let lsda = table_of(memory, fde);
    put_sites(alloc, out, &lsda, thrown, place)?;
    let frame = FrameView {
        ip: pc,
        signal,
        lsda,
    };
    let found = personality(2, thrown, &frame);
    put_verdict(alloc, out, found)?;
    Ok(found)
}
