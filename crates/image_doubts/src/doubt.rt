// What is doubted of a function, of a site and of a type.
ghost use Rattle.std.specs.Prelude.{◌≡◌, ◌+◌, ◌<◌, ◌^◌};
ghost use Rattle.eh_bytes.specs.Memory.{memory_of};
ghost use Rattle.table_forms.specs.Fde.{is_in};
ghost use Rattle.image_doubts.specs.Doubts.{is_cut, is_empty, is_inside, is_no_code, is_nowhere, is_outside};

use crate::start::{begins, is_between};
use eh_bytes::{Region64, Segments};
use table_forms::Site;

/// Whether the first or the last byte of a function is no code.
pub fn is_no_code(memory: &Segments, region: Region64) -> bool
    requires { region.start + region.length < 2 ^ 64 }
    ensures { result ≡ is_no_code (memory_of memory.now) region }
{
    if region.length == 0 {
        return false;
    }
    let last = region.start + region.length - 1;
    !(memory.is_code(region.start as u128) && memory.is_code(last as u128))
}

/// Whether a site has no byte.
pub fn is_empty(site: Site) -> bool
    ensures { result ≡ is_empty site }
{
    site.end <= site.start
}

/// Whether a site begins or ends inside an instruction.
pub fn is_cut(region: Region64, marks: &[bool], site: Site) -> bool
    requires { region.start + region.length < 2 ^ 64 }
    ensures { result ≡ is_cut region marks.now site }
{
    !(is_between(region, marks, site.start) && is_between(region, marks, site.end))
}

// Whether a region has a place.
fn holds(region: Region64, place: u64) -> bool
    ensures { result ≡ is_in region place }
{
    let end = region.start as u128 + region.length as u128;
    region.start <= place && (place as u128) < end
}

/// Whether a site's pad lies in its function, and begins no instruction of it.
pub fn is_inside(region: Region64, marks: &[bool], site: Site) -> bool
    ensures { result ≡ is_inside region marks.now site }
{
    site.pad != 0 && holds(region, site.pad) && !begins(region, marks, site.pad)
}

/// Whether a site has a pad that does not lie in its function.
pub fn is_outside(region: Region64, site: Site) -> bool
    ensures { result ≡ is_outside region site }
{
    site.pad != 0 && !holds(region, site.pad)
}

/// Whether a type entry leads outside of memory.
pub fn is_nowhere(memory: &Segments, entry: u64) -> bool
    ensures { result ≡ is_nowhere (memory_of memory.now) entry }
{
    entry != 0 && memory.segment_with(entry).is_none()
}
