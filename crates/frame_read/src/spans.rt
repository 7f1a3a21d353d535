// Where the parts of .eh_frame stand (LSB Core, "The .eh_frame section").
ghost use Rattle.std.specs.Prelude.{◌≡◌, ◌+◌, ◌≤◌, length, vec_len, All, IfOk};
ghost use Rattle.eh_bytes.specs.Memory.{part_of};
ghost use Rattle.table_forms.specs.Spans.{spans_within};
ghost use Rattle.frame_read.specs.SeenSpan.{spans_seen, cut_of, IsInside};

use crate::field::u32_at;
use crate::span::Span;
use eh_bytes::Segment;
use std::alloc::{AllocError, Global};
use table_forms::{Reason, Refusal, refused};

/// Where the parts stand from a place on, up to the end or to the first that leaves its segment,
/// and the refusal of that one.
pub fn spans_of(
    alloc: Global,
    segment: &Segment,
    first: usize,
) -> Result<(Vec<Span>, Option<Refusal>), AllocError>
    requires { first ≤ vec_len segment.now.bytes }
    ensures spans { IfOk result (λ r. spans_within (length segment.now.bytes.items) (part_of segment.now) first ≡ record { list = spans_seen r.0.items; cut = cut_of r.1 }) }
    ensures inside { IfOk result (λ r. All (IsInside (length segment.now.bytes.items)) r.0.items) }
{
    let end = segment.bytes.len();
    let mut spans = Vec::new(alloc);
    let mut place = first;
    'spans: while place < end {
        match u32_at(segment, end, place) {
            Err(e) => return Ok((spans, Some(e))),
            Ok((length, next)) => {
                if length == 0 {
                    return Ok((spans, None));
                }
                if length as usize > end - next {
                    let cut = refused(
                        Reason::FrameTruncated,
                        segment.file_at as u128 + place as u128,
                    );
                    return Ok((spans, Some(cut)));
                }
                let stop = next + length as usize;
                spans.push(Span { at: place, stop })?;
                place = stop;
            }
        }
    }
    Ok((spans, None))
}
