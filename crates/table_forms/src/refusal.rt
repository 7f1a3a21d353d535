// The refusals of a reader while it reads, and which of two answers.
ghost use Rattle.std.specs.Prelude.{◌≡◌, option_map};
ghost use Rattle.table_forms.specs.Fault.{fault, least, unless, joined};
ghost use Rattle.table_forms.specs.Seen.{fault_of};

use crate::reason::Reason;

/// A refusal, at a place in the file, which is any sum of numbers of 64 bits, with two locations
/// where they differ.
#[derive(Clone, Copy, Drop, Debug)]
pub struct Refusal {
    pub reason: Reason,
    pub place: u128,
    pub location: u64,
    pub other: u64,
}

/// The refusal for this reason at this place.
pub fn refused(reason: Reason, place: u128) -> Refusal
    ensures { fault_of result ≡ fault reason place }
{
    Refusal {
        reason,
        place,
        location: 0,
        other: 0,
    }
}

/// The refusal for this reason at this place where a condition does not hold.
#[tactic(auto, unfolding(crate::specs::Fault::least))]
pub fn unless(holds: bool, reason: Reason, place: u128) -> Option<Refusal>
    ensures { option_map fault_of result ≡ least (unless holds reason place) }
{
    if holds {
        None
    } else {
        Some(refused(reason, place))
    }
}

/// The one that answers of two: at the lesser place, then with the lesser number.
#[tactic(auto, unfolding(crate::specs::Fault::is_before))]
pub fn joined(first: Option<Refusal>, second: Option<Refusal>) -> Option<Refusal>
    ensures { option_map fault_of result ≡ joined (option_map fault_of first) (option_map fault_of second) }
{
    match first {
        None => second,
        Some(f) => match second {
            None => first,
            Some(g) => {
                if f.place < g.place
                    || f.place == g.place && f.reason.number() <= g.reason.number()
                {
                    first
                } else {
                    second
                }
            }
        },
    }
}
