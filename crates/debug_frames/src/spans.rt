// Where the parts of .debug_frame stand (DWARF 5, 6.4.1): the list ends with its section.
ghost use Rattle.std.specs.Prelude.{◌≡◌, ◌*◌, ◌≤◌, length, All, IfOk};
ghost use Rattle.eh_bytes.specs.Memory.{part_of};
ghost use Rattle.frame_read.specs.SeenSpan.{spans_seen, cut_of, IsInside};
ghost use Rattle.debug_frames.specs.DebugSpans.{debug_spans};

use eh_bytes::Segment;
use frame_read::field::u32_at;
use frame_read::span::Span;
use std::alloc::{AllocError, Global};
use table_forms::{Reason, Refusal, refused};

/// Where the parts stand, up to the end or to the first that leaves its section, and the refusal of
/// that one.
pub fn spans_of(
    alloc: Global,
    section: &Segment,
) -> Result<(Vec<Span>, Option<Refusal>), AllocError>
    ensures spans { IfOk result (λ r. debug_spans (part_of section.now) ≡ record { list = spans_seen r.0.items; cut = cut_of r.1 }) }
    ensures inside { IfOk result (λ r. All (IsInside (length section.now.bytes.items)) r.0.items) }
    ensures few { IfOk result (λ r. 4 * length r.0.items ≤ length section.now.bytes.items) }
{
    let end = section.bytes.len();
    let mut spans = Vec::new(alloc);
    let mut place = 0;
    'spans: while place < end {
        match u32_at(section, end, place) {
            Err(e) => return Ok((spans, Some(e))),
            Ok((length, next)) => {
                if length as usize > end - next {
                    let cut = refused(
                        Reason::FrameTruncated,
                        section.file_at as u128 + place as u128,
                    );
                    return Ok((spans, Some(cut)));
                }
                let stop = next + length as usize;
                spans.push(Span { at: place, stop })?;
                place = stop;
            }
        }
    }
    Ok((spans, None))
}
