// Whole images.
ghost use Rattle.std.specs.Prelude.{◌≡◌, ◌≤◌, ◌^◌, ◌++◌, [], option_map, length, IfOk};
ghost use Rattle.table_forms.specs.Fault.{least};
ghost use Rattle.table_forms.specs.Seen.{fault_of};
ghost use Rattle.elf_image.specs.Programs.{loaded};
ghost use Rattle.elf_image.specs.Elf.{segment_faults, run_faults, faults_to_run, image_of, elf};
ghost use Rattle.elf_image.specs.Loads.{AreSound};
ghost use Rattle.elf_image.specs.Reads.{ReadsImage, image_seen};

use crate::error::ImageError;
use crate::header::header_refusal;
use crate::load::{is_within, load_refusal, low_refusal};
use crate::memory::memory_of;
use crate::number::word;
use crate::program::{ProgramHeader, frames_header, headers_of, loads, runtime_header};
use crate::runtime_header::{has_table, runtime_of, runtime_refusal};
use eh_bytes::{RuntimeRecord, Segments};
use std::alloc::{AllocError, Global};
use table_forms::{Reason, Refusal, joined, unless};

/// An image: where it begins, its memory, and what it names.
#[derive(Drop)]
pub struct Elf {
    pub entry: u64,
    pub segments: Segments,
    /// The address of the frames' header.
    pub frame_header: u64,
    pub runtime: Option<RuntimeRecord>,
}

// What is refused behind the header of the file.
#[tactic(auto, using(crate::proofs::Joined::least_of_both), unfolding(crate::specs::Elf::segment_faults))]
fn segment_refusal(
    file: &[u8],
    headers: &[ProgramHeader],
    loads: &[ProgramHeader],
) -> Option<Refusal>
    requires known { loads.now ≡ loaded headers.now }
    requires few { length loads.now ≤ 2 ^ 16 }
    ensures { option_map fault_of result ≡ least (segment_faults file.now headers.now) }
{
    let frames = unless(
        is_within(loads, frames_header(headers)),
        Reason::NoFrames,
        0,
    );
    joined(
        joined(load_refusal(file.len() as u64, loads), frames),
        runtime_refusal(file, loads, runtime_header(headers)),
    )
}

// What is refused besides where the image is to run.
#[tactic(auto, using(crate::proofs::Joined::least_of_both), unfolding(crate::specs::Elf::run_faults))]
fn run_refusal(file: &[u8], headers: &[ProgramHeader], loads: &[ProgramHeader]) -> Option<Refusal>
    requires known { loads.now ≡ loaded headers.now }
    requires few { length loads.now ≤ 2 ^ 16 }
    ensures { option_map fault_of result ≡ least (run_faults file.now headers.now) }
{
    let table = unless(
        has_table(file, loads, frames_header(headers)),
        Reason::NoFrames,
        0,
    );
    let runtime = unless(runtime_header(headers).is_some(), Reason::NoRuntime, 0);
    joined(joined(low_refusal(loads), table), runtime)
}

// The image of a file of which nothing is refused.
fn image_of(
    alloc: Global,
    file: &[u8],
    headers: &[ProgramHeader],
    loads: &[ProgramHeader],
) -> Result<Elf, AllocError>
    requires known { loads.now ≡ loaded headers.now }
    requires sound { AreSound (length file.now) 0 [] loads.now }
    ensures { IfOk result (λ image. image_seen image ≡ image_of file.now headers.now) }
{
    let frame_header = match frames_header(headers) {
        None => 0,
        Some(header) => header.address,
    };
    Ok(Elf {
        entry: word(file, 24),
        segments: memory_of(alloc, file, loads)?,
        frame_header,
        runtime: runtime_of(file, runtime_header(headers)),
    })
}

// What is refused behind the header of the file, also to run.
#[tactic(auto, using(crate::proofs::Joined::least_of_both, crate::proofs::Joined::no_more_faults))]
fn all_refusal(
    file: &[u8],
    headers: &[ProgramHeader],
    loads: &[ProgramHeader],
    run: bool,
) -> Option<Refusal>
    requires known { loads.now ≡ loaded headers.now }
    requires few { length loads.now ≤ 2 ^ 16 }
    ensures { option_map fault_of result ≡ least (segment_faults file.now headers.now ++ faults_to_run run file.now headers.now) }
{
    let first = segment_refusal(file, headers, loads);
    if run {
        joined(first, run_refusal(file, headers, loads))
    } else {
        first
    }
}

/// The image in a file, or the first of its refusals (docs/TABLES.md), from `Magic` to `NoFrames`
/// and `Runtime`; with `run` also `NoRuntime` and what is refused of an image to run.
///
/// ```rust
/// let elf = read_elf(alloc, &file, false)?;
/// let frames = read_frames(alloc, &elf.segments, elf.frame_header)?;
/// ```
pub fn read_elf(alloc: Global, bytes: &[u8], run: bool) -> Result<Elf, ImageError>
    ensures { ReadsImage result (elf bytes.now run) }
{
    if let Some(refusal) = header_refusal(bytes) {
        return Err(refusal.into());
    }
    let headers = headers_of(alloc, bytes)?;
    let loads = loads(alloc, headers.as_slice())?;
    match all_refusal(bytes, headers.as_slice(), loads.as_slice(), run) {
        Some(refusal) => Err(refusal.into()),
        None => Ok(image_of(alloc, bytes, headers.as_slice(), loads.as_slice())?),
    }
}
