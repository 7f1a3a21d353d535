// A table that was read.
ghost use Rattle.std.specs.Prelude.{◌≡◌, ◌+◌, ◌≤◌, ◌<◌, ◌^◌, [], Ok, IfOk, IsOk, Contains, length, vec_len};
ghost use Rattle.eh_bytes.specs.Memory.{memory_of, part_of};
ghost use Rattle.table_forms.specs.Keys.{value_at};
ghost use Rattle.table_forms.specs.Lsda.{lsda, lsda_in, table_of};
ghost use Rattle.lsda_read.specs.Names.{actions_named, types_named, lists_named};
ghost use Rattle.lsda_read.specs.Reads.{Reads, ReadsTable};

use crate::chain::Chain;
use crate::entry::entry_value;
use crate::error::TableError;
use crate::head::Head;
use crate::head_fields::head_of;
use crate::list::SpecList;
use crate::sites::Sites;
use crate::table::table_refusal;
use crate::table_walk::table_judged;
use eh_bytes::{Region64, Segment, Segments};
use std::alloc::{AllocError, Global};
use std::marker::Model;
use table_forms::{Reason, Refusal, refused};

/// An exception table in its memory, of which nothing is refused. Contracts see its four lists.
///
/// ```rust
/// let table = Lsda::read_at(&memory, 0x2_0000, Region64 { start: 0x1_0000, length: 64 })?;
/// for site in table.sites() {
///     for filter in table.chain(site.action) {
///         println!(rt; "{:#x}..{:#x}: pad {:#x}, filter {filter}", site.start, site.end, site.pad)?;
///     }
/// }
/// ```
#[derive(Drop)]
pub struct Lsda<'a> {
    memory: &'a Segments,
    segment: &'a Segment,
    region: Region64,
    head: Head,
}

impl<'a> Model for Lsda<'a> {
    ghost use Rattle.std.specs.Prelude.{◌≡◌, ◌≤◌, true, map, vec_len};
    ghost use Rattle.std.specs.List.{list_all};
    ghost use Rattle.eh_bytes.specs.Memory.{memory_of, part_of};
    ghost use Rattle.table_forms.specs.Lsda.{Table, table_of};
    ghost use Rattle.table_forms.specs.LsdaSites.{site_of, site_records};
    ghost use Rattle.lsda_read.specs.Heads.{head_seen};
    ghost use Rattle.lsda_read.specs.Names.{site_fits};

    ghost Value = { Table };

    ghost view = { λ t. table_of (memory_of t.memory.now) (part_of t.segment.now) t.region (head_seen t.head) };

    ghost invariant = { λ t. (t.head.sites_at ≤ vec_len t.segment.now.bytes) ×
        (list_all site_fits (map (site_of (head_seen t.head) t.region) (site_records (part_of t.segment.now) (head_seen t.head)).records) ≡ true) };
}

// The table at a place of a segment.
#[tactic(auto, unfolding(table_forms::specs::Lsda::lsda_in))]
fn read_in<'a>(
    memory: &'a Segments,
    segment: &'a Segment,
    region: Region64,
    place: usize,
) -> Result<Lsda<'a>, Refusal>
    requires place { place ≤ vec_len segment.now.bytes }
    requires region { region.start + region.length < 2 ^ 64 }
    ensures { Reads (λ table. table) result (lsda_in (memory_of memory.now) region place (part_of segment.now)) }
{
    let head = head_of(segment, region, place)?;
    match table_refusal(memory, segment, &head, region) {
        Some(e) => Err(e),
        None => Ok(Lsda {
            memory,
            segment,
            region,
            head,
        }),
    }
}

// The table at a place of a segment, with what was judged kept.
#[tactic(auto, unfolding(table_forms::specs::Lsda::lsda_in))]
fn judged_in<'a>(
    alloc: Global,
    memory: &'a Segments,
    segment: &'a Segment,
    region: Region64,
    place: usize,
) -> Result<Result<Lsda<'a>, Refusal>, AllocError>
    requires place { place ≤ vec_len segment.now.bytes }
    requires region { region.start + region.length < 2 ^ 64 }
    ensures { IfOk result (λ read. Reads (λ table. table) read (lsda_in (memory_of memory.now) region place (part_of segment.now))) }
{
    let head = match head_of(segment, region, place) {
        Err(e) => return Ok(Err(e)),
        Ok(head) => head,
    };
    match table_judged(alloc, memory, segment, &head, region)? {
        Some(e) => Ok(Err(e)),
        None => Ok(Ok(Lsda {
            memory,
            segment,
            region,
            head,
        })),
    }
}

// The table at a place of a segment, of which nothing is refused.
fn known_in<'a>(
    memory: &'a Segments,
    segment: &'a Segment,
    region: Region64,
    place: usize,
) -> Lsda<'a>
    requires place { place ≤ vec_len segment.now.bytes }
    requires region { region.start + region.length < 2 ^ 64 }
    requires known { IsOk (lsda_in (memory_of memory.now) region place (part_of segment.now)) }
    ensures { lsda_in (memory_of memory.now) region place (part_of segment.now) ≡ Ok result }
{
    match head_of(segment, region, place) {
        Err(_) => unreachable!(),
        Ok(head) => Lsda {
            memory,
            segment,
            region,
            head,
        },
    }
}

// The table at an address.
#[tactic(auto, unfolding(table_forms::specs::Lsda::lsda))]
fn read_from<'a>(memory: &'a Segments, address: u64, region: Region64) -> Result<Lsda<'a>, Refusal>
    requires { region.start + region.length < 2 ^ 64 }
    ensures { Reads (λ table. table) result (lsda (memory_of memory.now) address region) }
{
    let Some(segment) = memory.segment_with(address) else {
        return Err(refused(Reason::TableTruncated, 0));
    };
    read_in(
        memory,
        segment,
        region,
        (address - segment.address) as usize,
    )
}

// The table at an address, with what was judged kept.
#[tactic(auto, unfolding(table_forms::specs::Lsda::lsda))]
fn judged_from<'a>(
    alloc: Global,
    memory: &'a Segments,
    address: u64,
    region: Region64,
) -> Result<Result<Lsda<'a>, Refusal>, AllocError>
    requires { region.start + region.length < 2 ^ 64 }
    ensures { IfOk result (λ read. Reads (λ table. table) read (lsda (memory_of memory.now) address region)) }
{
    let Some(segment) = memory.segment_with(address) else {
        return Ok(Err(refused(Reason::TableTruncated, 0)));
    };
    judged_in(
        alloc,
        memory,
        segment,
        region,
        (address - segment.address) as usize,
    )
}

impl<'a> Lsda<'a> {
    /// The table at an address for the function of a region, which ends at or below 2^64 - 1, or
    /// the first of all its refusals: 1 to 9, 14 and 15 of docs/TABLES.md (Itanium C++ ABI,
    /// "Exception Handling Tables"). The whole table is read, and no memory is taken.
    pub fn read_at(
        memory: &'a Segments,
        address: u64,
        region: Region64,
    ) -> Result<Lsda<'a>, TableError>
        requires { region.start + region.length < 2 ^ 64 }
        ensures { ReadsTable result (lsda (memory_of memory.now) address region) }
    {
        Ok(read_from(memory, address, region)?)
    }

    /// The table at an address of which nothing is refused, as `read_at` gives it: its head alone is
    /// read, and no memory is taken.
    #[tactic(auto, unfolding(table_forms::specs::Lsda::lsda))]
    pub fn known_at(memory: &'a Segments, address: u64, region: Region64) -> Lsda<'a>
        requires region { region.start + region.length < 2 ^ 64 }
        requires known { IsOk (lsda (memory_of memory.now) address region) }
        ensures { lsda (memory_of memory.now) address region ≡ Ok result }
    {
        match memory.segment_with(address) {
            None => unreachable!(),
            Some(segment) => known_in(
                memory,
                segment,
                region,
                (address - segment.address) as usize,
            ),
        }
    }

    /// The same table or refusal as `read_at` gives, in time proportional to the call-site table and
    /// to the records and lists that it names, but for a logarithm: a chain is walked up to a record
    /// that was met before, a list up to such an index. What was judged takes memory.
    pub fn judged_at(
        alloc: Global,
        memory: &'a Segments,
        address: u64,
        region: Region64,
    ) -> Result<Result<Lsda<'a>, TableError>, AllocError>
        requires { region.start + region.length < 2 ^ 64 }
        ensures { IfOk result (λ read. ReadsTable read (lsda (memory_of memory.now) address region)) }
    {
        match judged_from(alloc, memory, address, region)? {
            Err(e) => Ok(Err(e.into())),
            Ok(table) => Ok(Ok(table)),
        }
    }

    /// The sites, in order.
    pub fn sites(&self) -> Sites<'a>
        ensures { result ≡ self.now.sites }
    {
        Sites::of(self.segment, self.head, self.region)
    }

    /// The filters of an action that a site names, in the order in which they are tried. Of other
    /// actions nothing is said.
    pub fn chain(&self, action: u64) -> Chain<'a>
        ensures { Contains (actions_named self.now) action → result ≡ value_at [] self.now.actions action }
    {
        Chain::of(self.segment, self.head, action)
    }

    /// The value of a type entry that a chain or a list names, counted from 1; 0 is `catch (...)`.
    /// Of other entries nothing is said.
    pub fn type_entry(&self, i: u64) -> u64
        ensures { Contains (types_named self.now) i → result ≡ value_at 0 self.now.types i }
    {
        entry_value(self.memory, self.segment, &self.head, i)
    }

    /// The type indices of the list that the filter -j of a chain names. Of other lists nothing is
    /// said.
    pub fn spec_list(&self, j: u64) -> SpecList<'a>
        ensures { Contains (lists_named self.now) j → result ≡ value_at [] self.now.lists j }
    {
        SpecList::named(self.segment, &self.head, j)
    }
}
