// What a walk over the frames comes to.
ghost use Rattle.std.specs.Prelude.{◌≡◌};
ghost use Rattle.raise_core.specs.Finds.{landing_of};

use crate::asked::Target;
use frame_walk::{FaultKind, Frame};
use table_forms::Verdict;

/// A frame with a landing pad, which its verdict names.
#[derive(Clone, Copy)]
pub struct Landing {
    pub frame: Frame,
    pub verdict: Verdict,
}

/// The frame at which a walk stops: its verdict, itself as a target, and the first frame before it
/// that has a landing pad, if any.
#[derive(Clone, Copy)]
pub struct Stop {
    pub frame: Frame,
    pub verdict: Verdict,
    pub target: Option<Target>,
    pub before: Option<Landing>,
}

/// The frame at which a walk stops, or how the frames end without one.
#[derive(Clone, Copy)]
pub enum Found {
    At(Stop),
    EndOfStack,
    Broken(FaultKind),
}

/// Where control lands on the way to the frame at which a search stops: at the first frame with a
/// landing pad, which may be that frame itself.
pub fn landing_of(stop: &Stop) -> Landing
    ensures { result ≡ landing_of stop.now }
{
    match stop.before {
        Some(landing) => landing,
        None => Landing {
            frame: stop.frame,
            verdict: stop.verdict,
        },
    }
}
