// The modules that the words ask for.
ghost use Rattle.std.specs.Prelude.{◌≡◌, ◌≤◌, IfOk, length};

use command_line::{Reply, WordsError, scripts};
use std::alloc::{AllocError, Global};

/// What a module replies: each reply once, or each so many times.
#[derive(Drop)]
pub enum Script {
    Once(Vec<Reply>),
    Runs(Vec<(Reply, u32)>),
}

// The replies, in order.
fn replies_of(alloc: Global, runs: &[(Reply, u32)]) -> Result<Vec<Reply>, AllocError> {
    runs.iter().map(|run| run.0).collect(alloc)
}

fn script_of(alloc: Global, runs: Vec<(Reply, u32)>) -> Result<Script, AllocError> {
    if runs.iter().all(|run| run.1 == 1) {
        Ok(Script::Once(replies_of(alloc, runs.as_slice())?))
    } else {
        Ok(Script::Runs(runs))
    }
}

// Each of the scripts, in order.
fn each_script(alloc: Global, scripts: Vec<Vec<(Reply, u32)>>) -> Result<Vec<Script>, AllocError>
    ensures { IfOk result (λ found. length found.items ≡ length scripts.items) }
{
    let mut found = Vec::new(alloc);
    for runs in scripts {
        found.push(script_of(alloc, runs)?)?;
    }
    Ok(found)
}

/// What each module replies, in order, of at most 64; there are none where the words are no command.
pub fn scripts_of(alloc: Global, words: &Vec<String>) -> Result<Vec<Script>, AllocError>
    ensures { IfOk result (λ found. length found.items ≤ 64) }
{
    match scripts(alloc, words) {
        Err(WordsError::Usage) => Ok(Vec::new(alloc)),
        Err(WordsError::NoMemory) => Err(AllocError),
        Ok(scripts) => each_script(alloc, scripts),
    }
}
