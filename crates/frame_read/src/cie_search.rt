// A CIE by its place, sought by halves.
ghost use Rattle.std.specs.Prelude.{◌≡◌, ◌+◌, ◌<◌, ◌==◌, ℕ, length, find};
ghost use Rattle.std.specs.Option.{option_copied};
ghost use Rattle.frame_read.specs.Rises.{RisesBy};

use crate::entry::CieEntry;

// The half of them that has the CIE at a place, if there is one.
fn half<'a, 'b>(entries: &'b [CieEntry<'a>], at: u128) -> &'b [CieEntry<'a>]
    requires many { 1 < length entries.now }
    requires rises { (n : ℕ) × RisesBy (λ e. e.at) n entries.now }
    ensures rises { (n : ℕ) × RisesBy (λ e. e.at) n result.now }
    ensures found { find (λ e. e.at == at) result.now ≡ find (λ e. e.at == at) entries.now }
    ensures shorter { length result.now < length entries.now }
{
    let (front, back) = entries.split_at(entries.len() / 2);
    match back.split_first() {
        Some((entry, _)) if entry.at as u128 <= at => back,
        _ => front,
    }
}

// The first that stands at a place.
fn first_at<'a, 'b>(entries: &'b [CieEntry<'a>], at: u128) -> Option<&'b CieEntry<'a>>
    ensures { option_copied result ≡ find (λ e. e.at == at) entries.now }
{
    entries.iter().find(|entry| entry.at as u128 == at)
}

/// The CIE at a place.
pub fn entry_at<'a, 'b>(entries: &'b [CieEntry<'a>], at: u128) -> Option<&'b CieEntry<'a>>
    requires { (n : ℕ) × RisesBy (λ e. e.at) n entries.now }
    ensures { option_copied result ≡ find (λ e. e.at == at) entries.now }
{
    let mut rest = entries;
    'halves: while rest.len() > 1 {
        rest = half(rest, at);
    }
    first_at(rest, at)
}

/// The CIE from which a distance leads to the field behind the length at `at`.
pub fn first_behind<'a, 'b>(
    entries: &'b [CieEntry<'a>],
    at: usize,
    distance: u32,
) -> Option<&'b CieEntry<'a>>
    requires { (n : ℕ) × RisesBy (λ e. e.at) n entries.now }
    ensures { option_copied result ≡ find (λ e. e.at + distance == at + 4) entries.now }
{
    let field = at as u128 + 4;
    if distance as u128 > field {
        return None;
    }
    entry_at(entries, field - distance as u128)
}
