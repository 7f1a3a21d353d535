// A place of a clean image.
ghost use Rattle.std.specs.Prelude.{◌≡◌, ◌++◌, true, IfSome, IfOk, option_map};
ghost use Rattle.table_forms.specs.Fde.{is_in};
ghost use Rattle.table_forms.specs.Verdict.{look_up_place};
ghost use Rattle.elf_image.specs.Clean as images;
ghost use Rattle.frame_read.specs.Listed.{fde_listed};
ghost use Rattle.personality.specs.Seen.{thrown_of};
ghost use Rattle.place_verdicts.specs.Places.{function_at, found_text, place_text, verdict_of, interrupts};
ghost use Rattle.place_verdicts.specs.Image.{IsRead};

use crate::frame::put_frame_at;
use crate::function::fde_at;
use frame_read::Fde;
use personality::Thrown;
use std::alloc::{AllocError, Global};
use table_check::CleanImage;
use table_dump::text::put_text;
use table_forms::Verdict;

/// What a place came to: the verdict of its frame, if it has one, and whether a signal interrupted the
/// next frame outward.
#[derive(Clone, Copy, Drop)]
pub struct Outcome {
    pub verdict: Option<Verdict>,
    pub interrupts: bool,
}

/// The place of the instruction that a frame has not finished.
pub fn look_up_place(pc: u64, signal: bool) -> u64
    ensures { result ≡ look_up_place pc signal }
{
    if signal { pc } else { pc.wrapping_sub(1) }
}

// The lines of the frame that was found for a place.
fn put_found(
    alloc: Global,
    out: &mut Vec<u8>,
    image: &CleanImage,
    thrown: &Thrown,
    signal: bool,
    pc: u64,
    found: Option<Fde>,
) -> Result<Outcome, AllocError>
    requires read { (c : images.CleanImage) × IsRead image.now c }
    requires found { (c : images.CleanImage) → IsRead image.now c → found ≡ option_map (λ g. fde_listed g.fde) (function_at c.functions (look_up_place pc signal)) }
    requires inside { IfSome found (λ f. is_in f.region (look_up_place pc signal) ≡ true) }
    ensures text { IfOk result (λ o. (c : images.CleanImage) → IsRead image.now c → out.new.items ≡ out.old.items ++ found_text (thrown_of thrown.now) pc signal (function_at c.functions (look_up_place pc signal))) }
    ensures verdict { IfOk result (λ o. (c : images.CleanImage) → IsRead image.now c → o.verdict ≡ verdict_of (thrown_of thrown.now) pc signal (function_at c.functions (look_up_place pc signal))) }
    ensures interrupts { IfOk result (λ o. (c : images.CleanImage) → IsRead image.now c → o.interrupts ≡ interrupts (function_at c.functions (look_up_place pc signal))) }
{
    match found {
        None => {
            put_text(out, "no frame\n")?;
            Ok(Outcome {
                verdict: None,
                interrupts: false,
            })
        }
        Some(fde) => {
            let memory = &image.elf.segments;
            let verdict = put_frame_at(
                alloc,
                out,
                memory,
                &image.frames,
                &fde,
                thrown,
                pc,
                signal,
            )?;
            Ok(Outcome {
                verdict: Some(verdict),
                interrupts: fde.signal,
            })
        }
    }
}

/// The lines of a place, where a signal interrupted its frame or not.
pub fn put_place(
    alloc: Global,
    out: &mut Vec<u8>,
    image: &CleanImage,
    thrown: &Thrown,
    signal: bool,
    pc: u64,
) -> Result<Outcome, AllocError>
    requires { (c : images.CleanImage) × IsRead image.now c }
    ensures text { IfOk result (λ o. (c : images.CleanImage) → IsRead image.now c → out.new.items ≡ out.old.items ++ place_text c.functions (thrown_of thrown.now) signal pc) }
    ensures verdict { IfOk result (λ o. (c : images.CleanImage) → IsRead image.now c → o.verdict ≡ verdict_of (thrown_of thrown.now) pc signal (function_at c.functions (look_up_place pc signal))) }
    ensures interrupts { IfOk result (λ o. (c : images.CleanImage) → IsRead image.now c → o.interrupts ≡ interrupts (function_at c.functions (look_up_place pc signal))) }
{
    let line = format!(in alloc; "place 0x{pc:x}\n")?;
    put_text(out, line.as_str())?;
    let found = fde_at(image, look_up_place(pc, signal));
    let outcome = put_found(alloc, out, image, thrown, signal, pc, found)?;
    Ok(outcome)
}
