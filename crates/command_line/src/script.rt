// What a module replies, as the value of `--foreign` says it.
ghost use Rattle.std.specs.Prelude.{◌≡◌, ◌==◌, IfOk, map, option_map};
ghost use Rattle.std.specs.List.{slice_split};
ghost use Rattle.command_line.specs.Gives.{Gives};
ghost use Rattle.command_line.specs.Script.{count_of, reply_of, run_of, runs_within, script_of};

use crate::error::WordsError;
use crate::parted::parted;
use eh_outer::Reply;
use plain_text::{int_of, number_of};
use std::alloc::{AllocError, Global};

/// The most replies of a script.
const MOST_REPLIES: u32 = 1_000_000;

// A reply: `v` and an int, or `r` and the token that is raised.
fn reply_of(text: &[u8]) -> Option<Reply>
    ensures { result ≡ reply_of text.now }
{
    match text {
        [b'v', int @ ..] => Some(Reply::Value(int_of(int)?)),
        [b'r', token @ ..] => Some(Reply::Raise(number_of(0xffff_ffff, token)? as u32)),
        _ => None,
    }
}

// How many times a reply is given, by what stands behind its `*`.
fn count_of(text: Option<&[u8]>) -> Option<u32>
    ensures { result ≡ count_of (option_map (λ t. t.now) text.entry) }
{
    match text {
        None => Some(1),
        Some(count) => match number_of(MOST_REPLIES as u64, count) {
            Some(0) => None,
            Some(count) => Some(count as u32),
            None => None,
        },
    }
}

// A reply, and how many times it is given.
#[tactic(auto, unfolding(crate::specs::Script::run_of))]
fn run_of(item: &[u8]) -> Option<(Reply, u32)>
    ensures { result ≡ run_of item.now }
{
    let (reply, count) = parted(b'*', item);
    Some((reply_of(reply)?, count_of(count)?))
}

// The items of a script, which are joined by `,`.
fn items_of<'a>(alloc: Global, text: &'a str) -> Result<Vec<&'a str>, AllocError>
    ensures { IfOk result (λ items. map (λ x. x.now) items.items ≡ slice_split (λ b. b == 44) text.now) }
{
    text.split(',').collect(alloc)
}

// What items give, where it is at most 1,000,000 replies.
fn runs_in(alloc: Global, items: &[&str]) -> Result<Vec<(Reply, u32)>, WordsError>
    ensures { Gives (λ runs. runs.items) result (runs_within 1000000 (map (λ x. x.now) items.now)) }
{
    let mut runs = Vec::new(alloc);
    let mut left = MOST_REPLIES;
    for item in items {
        let Some((reply, count)) = run_of(item.as_bytes()) else {
            return Err(WordsError::Usage);
        };
        if count > left {
            return Err(WordsError::Usage);
        }
        left -= count;
        runs.push((reply, count))?;
    }
    Ok(runs)
}

/// The replies that a script gives, each so many times, in order. Usage where it is no script, as where it gives more than
/// 1,000,000.
pub fn script_of(alloc: Global, text: &str) -> Result<Vec<(Reply, u32)>, WordsError>
    ensures { Gives (λ runs. runs.items) result (script_of text.now) }
{
    let items = items_of(alloc, text)?;
    runs_in(alloc, items.as_slice())
}
