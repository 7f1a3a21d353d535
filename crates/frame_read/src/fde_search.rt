// An FDE by a place in its region, sought by halves.
ghost use Rattle.std.specs.Prelude.{◌≡◌, ◌<◌, ℕ, length, find};
ghost use Rattle.std.specs.Option.{option_copied};
ghost use Rattle.frame_read.specs.InOrder.{holds, InOrder};

use crate::listed::Fde;

// The half of them that has the place, if one has.
fn half(order: &[Fde], pc: u64) -> &[Fde]
    requires many { 1 < length order.now }
    requires rising { (n : ℕ) × InOrder n order.now }
    ensures rising { (n : ℕ) × InOrder n result.now }
    ensures found { find (holds pc) result.now ≡ find (holds pc) order.now }
    ensures shorter { length result.now < length order.now }
{
    let (front, back) = order.split_at(order.len() / 2);
    match back.split_first() {
        Some((fde, _)) if fde.region.start <= pc => back,
        _ => front,
    }
}

// The first whose region holds a place.
fn first_with(order: &[Fde], pc: u64) -> Option<&Fde>
    ensures { option_copied result ≡ find (holds pc) order.now }
{
    order.iter().find(|fde| fde.holds(pc))
}

/// The one whose region holds a place.
pub fn fde_with(order: &[Fde], pc: u64) -> Option<Fde>
    requires { (n : ℕ) × InOrder n order.now }
    ensures { result ≡ find (holds pc) order.now }
{
    let mut rest = order;
    'halves: while rest.len() > 1 {
        rest = half(rest, pc);
    }
    first_with(rest, pc).copied()
}
