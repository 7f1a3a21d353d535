// Where a phase stops.
ghost use Rattle.std.specs.Prelude.{◌≡◌};
ghost use Rattle.raise_core.specs.First.{is_target, has_pad, is_unpassable};

use table_forms::Verdict;

/// What a walk over frames looks for.
#[derive(Clone, Copy)]
pub enum Goal {
    /// The frame that the exception does not pass.
    Target,
    /// A frame with a landing pad.
    Pad,
    /// A cleanup, or a frame that ends the program.
    Cleanup,
    /// The same, or the frame with a canonical frame address.
    UpTo(u64),
}

pub fn is_target(verdict: Verdict) -> bool
    ensures { result ≡ is_target verdict }
{
    match verdict {
        Verdict::Handler(_, _) | Verdict::Spec(_, _) | Verdict::Terminate => true,
        Verdict::Nothing | Verdict::Cleanup(_) => false,
    }
}

pub fn has_pad(verdict: Verdict) -> bool
    ensures { result ≡ has_pad verdict }
{
    match verdict {
        Verdict::Cleanup(_) | Verdict::Handler(_, _) | Verdict::Spec(_, _) => true,
        Verdict::Nothing | Verdict::Terminate => false,
    }
}

pub fn is_unpassable(verdict: Verdict) -> bool
    ensures { result ≡ is_unpassable verdict }
{
    match verdict {
        Verdict::Cleanup(_) | Verdict::Terminate => true,
        Verdict::Nothing | Verdict::Handler(_, _) | Verdict::Spec(_, _) => false,
    }
}
