// The place of a frame that is looked up.
ghost use Rattle.std.specs.Prelude.{◌≡◌, find, ◌&&◌, nat_le, nat_lt};
ghost use Rattle.table_forms.specs.Verdict.{look_up_place, site_at};

use lsda_read::Lsda;
use table_forms::Site;

/// A frame, as its personality sees it.
#[derive(Drop)]
pub struct FrameView<'a> {
    /// Where the frame goes on.
    pub ip: u64,
    /// Whether it was interrupted there, so that the instruction at `ip` has not begun.
    pub signal: bool,
    /// The table of its function, if it has one.
    pub lsda: Option<Lsda<'a>>,
}

/// The place of the instruction that the frame has not finished.
pub fn look_up_place(ip: u64, signal: bool) -> u64
    ensures { result ≡ look_up_place ip signal }
{
    if signal { ip } else { ip.wrapping_sub(1) }
}

/// The first site that holds the place.
pub fn site_at(table: &Lsda<'_>, place: u64) -> Option<Site>
    ensures { result ≡ site_at table.now place }
{
    let mut sites = table.sites();
    'sites: while let Some(site) = sites.next() {
        if site.start <= place && place < site.end {
            return Some(site);
        }
    }
    None
}
