// The sites of a table, one after the other.
ghost use Rattle.std.specs.Prelude.{◌≡◌, ◌+◌, ◌≤◌, ℕ, suc, true, Some, List, map, length, take, IfSome, vec_len};
ghost use Rattle.std.specs.List.{list_all};
ghost use Rattle.eh_bytes.specs.Memory.{part_of};
ghost use Rattle.table_forms.specs.LsdaSites.{site_of, site_records};
ghost use Rattle.lsda_read.specs.Heads.{head_seen};
ghost use Rattle.lsda_read.specs.Left.{records_left, and_records};
ghost use Rattle.lsda_read.specs.Names.{site_fits};
ghost use Rattle.lsda_read.specs.Sites.{record_of, found};

use crate::head::Head;
use crate::site::{SiteRecord, record_of};
use eh_bytes::{Region64, Segment};
use std::marker::Model;
use table_forms::Site;

/// The bytes of a segment up to the end of the call-site table.
pub fn site_bytes<'a>(segment: &'a Segment, head: &Head) -> &'a [u8]
    ensures bytes { result.now ≡ take head.now.actions_at segment.now.bytes.items }
    ensures start { head.now.sites_at ≤ vec_len segment.now.bytes → head.now.sites_at ≤ length result.now }
    ensures short { length result.now ≤ vec_len segment.now.bytes }
{
    let bytes = segment.bytes.as_slice();
    if head.actions_at < bytes.len() as u128 {
        &bytes[..head.actions_at as usize]
    } else {
        bytes
    }
}

// The record at a place of the table, and the place behind it; none at the table's end.
fn record_here(bytes: &[u8], file_at: u64, head: &Head, place: usize) -> Option<(SiteRecord, usize)>
    requires { place ≤ length bytes.now }
    ensures gives { (n : ℕ) → records_left bytes.now file_at (head_seen head.now) (suc n) (Some place) ≡ and_records (found result) (records_left bytes.now file_at (head_seen head.now) n) }
    ensures inside { IfSome result (λ x. x.1 ≤ length bytes.now) }
{
    if place as u128 >= head.actions_at {
        return None;
    }
    match record_of(bytes, file_at, head, place) {
        Err(_) => None,
        Ok(record) => Some(record),
    }
}

// The site of a record whose addresses are those of 64 bits.
fn site_from(head: &Head, region: Region64, row: &SiteRecord) -> Site
    requires { site_fits (site_of (head_seen head.now) region (record_of row.now)) ≡ true }
    ensures { result ≡ site_of (head_seen head.now) region (record_of row.now) }
{
    let start = region.start + row.start;
    Site {
        start,
        end: start + row.length,
        pad: if row.pad == 0 {
            0
        } else {
            head.pads_from + row.pad
        },
        action: row.action,
    }
}

/// The sites of a table, in order.
#[derive(Drop)]
pub struct Sites<'a> {
    bytes: &'a [u8],
    file_at: u64,
    head: Head,
    region: Region64,
    // The next record, if any.
    place: Option<usize>,
    // How many records come at most.
    left: usize,
}

impl<'a> Model for Sites<'a> {
    ghost use Rattle.std.specs.Prelude.{◌≡◌, ◌≤◌, true, List, map, length};
    ghost use Rattle.std.specs.List.{list_all};
    ghost use Rattle.std.specs.Option.{ForSome};
    ghost use Rattle.table_forms.specs.declared.found.Site.{Site};
    ghost use Rattle.table_forms.specs.LsdaSites.{site_of};
    ghost use Rattle.lsda_read.specs.Heads.{head_seen};
    ghost use Rattle.lsda_read.specs.Left.{records_left};
    ghost use Rattle.lsda_read.specs.Names.{site_fits};

    ghost Value = { List Site };

    ghost view = { λ s. map (site_of (head_seen s.head) s.region) (records_left s.bytes.now s.file_at (head_seen s.head) s.left s.place) };

    ghost invariant = { λ s. ForSome s.place (λ p. p ≤ length s.bytes.now) ×
        (list_all site_fits (map (site_of (head_seen s.head) s.region) (records_left s.bytes.now s.file_at (head_seen s.head) s.left s.place)) ≡ true) };
}

impl<'a> Sites<'a> {
    /// The sites of the table with this head.
    pub(crate) fn of(segment: &'a Segment, head: Head, region: Region64) -> Sites<'a>
        requires start { head.sites_at ≤ vec_len segment.now.bytes }
        requires fits { list_all site_fits (map (site_of (head_seen head) region) (site_records (part_of segment.now) (head_seen head)).records) ≡ true }
        ensures { result ≡ map (site_of (head_seen head) region) (site_records (part_of segment.now) (head_seen head)).records }
    {
        Sites {
            bytes: site_bytes(segment, &head),
            file_at: segment.file_at,
            head,
            region,
            place: Some(head.sites_at),
            left: 1 + segment.bytes.len(),
        }
    }
}

impl<'a> Iterator for Sites<'a> {
    ghost use Rattle.std.specs.Iterator.{YieldsFirst, item_count};

    type Item = Site;

    ghost next_gives = { YieldsFirst (λ rest. rest) };

    ghost remaining = { item_count (λ rest. rest) };

    fn next(&mut self) -> Option<Site> {
        let place = self.place.take()?;
        if self.left == 0 {
            return None;
        }
        self.left -= 1;
        let (row, next) = record_here(self.bytes, self.file_at, &self.head, place)?;
        self.place = Some(next);
        Some(site_from(&self.head, self.region, &row))
    }
}
