// The verdict on what is thrown.
ghost use Rattle.std.specs.Prelude.{◌≡◌, Contains, false, []};
ghost use Rattle.lsda_read.specs.Names.{actions_named};
ghost use Rattle.table_forms.specs.Keys.{value_at};
ghost use Rattle.table_forms.specs.Verdict.{verdict, verdict_at};
ghost use Rattle.personality.specs.Seen.{thrown_of};
ghost use Rattle.personality.specs.Named.{SiteIsNamed};
ghost use Rattle.personality.specs.Decided.{stopped, decided_by};

use crate::filter::stops;
use crate::place::{FrameView, look_up_place, site_at};
use crate::thrown::Thrown;
use lsda_read::Lsda;
use table_forms::{Site, Verdict};

// What a filter that stops it makes of a pad.
fn stopped(thrown: &Thrown, pad: u64, filter: i64) -> Verdict
    ensures { result ≡ stopped (thrown_of thrown.now) pad filter }
{
    if filter >= 0 {
        return Verdict::Handler(pad, filter);
    }
    match thrown {
        Thrown::Foreign => Verdict::Terminate,
        Thrown::Native(_) => Verdict::Spec(pad, filter),
        Thrown::Forced => Verdict::Spec(pad, filter),
    }
}

// The verdict of the chain of an action that a site names.
#[tactic(auto, using(crate::proofs::NamedBy::filters_named))]
fn decided(table: &Lsda<'_>, thrown: &Thrown, pad: u64, action: u64) -> Verdict
    requires { Contains (actions_named table.now) action }
    ensures { result ≡ decided_by table.now (thrown_of thrown.now) pad false (value_at [] table.now.actions action) }
{
    let mut cleanup = false;
    let mut chain = table.chain(action);
    'filters: while let Some(filter) = chain.next() {
        if stops(table, thrown, filter) {
            return stopped(thrown, pad, filter);
        }
        cleanup = cleanup || filter == 0;
    }
    if cleanup {
        Verdict::Cleanup(pad)
    } else {
        Verdict::Nothing
    }
}

// The verdict at a site of the table, where there is one.
fn verdict_at(table: &Lsda<'_>, thrown: &Thrown, site: Option<Site>) -> Verdict
    requires { SiteIsNamed table.now site }
    ensures { result ≡ verdict_at table.now (thrown_of thrown.now) site }
{
    let Some(site) = site else {
        return Verdict::Terminate;
    };
    if site.pad == 0 {
        return Verdict::Nothing;
    }
    if site.action == 0 {
        return Verdict::Cleanup(site.pad);
    }
    decided(table, thrown, site.pad, site.action)
}

/// What becomes of an exception in a frame.
///
/// A frame without a table does nothing; one whose table has no site for its place ends the
/// program. Else the first filter of the site's chain that stops the exception decides, and its
/// value is the selector; where none does, an action 0 or a filter 0 makes the pad a cleanup. A
/// foreign exception that meets a specification first ends the program. The verdict is the same in
/// both phases, so the action bits say nothing. Nothing is refused, and no memory is taken.
#[tactic(auto, using(crate::proofs::NamedBy::site_named), unfolding(table_forms::specs::Verdict::verdict))]
pub fn personality(_actions: u32, thrown: &Thrown, frame: &FrameView<'_>) -> Verdict
    ensures { result ≡ verdict frame.now.lsda frame.now.ip frame.now.signal (thrown_of thrown.now) }
{
    let Some(table) = &frame.lsda else {
        return Verdict::Nothing;
    };
    let place = look_up_place(frame.ip, frame.signal);
    verdict_at(table, thrown, site_at(table, place))
}
