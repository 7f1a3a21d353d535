// The values of the options.
ghost use Rattle.std.specs.Prelude.{◌≡◌, ◌≤◌, ℕ, Bool, IfOk, length, map, string_bytes};
ghost use Rattle.cxx_ast.specs.declared.standard.Std.{Std};
ghost use Rattle.command_line.specs.Gives.{Gives};
ghost use Rattle.command_line.specs.Script.{all_some, script_of};
ghost use Rattle.command_line.specs.Command.{max_in, max_of, scripts_of, std_in, std_of, switch_of};

use crate::error::WordsError;
use crate::script::script_of;
use cxx_ast::standard::Std;
use eh_outer::Reply;
use plain_text::number_of;
use std::alloc::Global;

/// The most turns, where no option says so.
const DEFAULT_MAX: u64 = 10_000_000;

/// The largest number that may be the most turns.
const GREATEST_MAX: u64 = 1 << 40;

/// The most scripts.
const MOST_SCRIPTS: usize = 64;

// The most turns that a text asks for.
fn max_in(text: &str) -> Result<u64, WordsError>
    ensures { Gives (λ (n : ℕ). n) result (max_in text.now) }
{
    match number_of(GREATEST_MAX, text.as_bytes()) {
        None | Some(0) => Err(WordsError::Usage),
        Some(max) => Ok(max),
    }
}

/// The most turns.
pub fn max_of(texts: &[String]) -> Result<u64, WordsError>
    ensures { Gives (λ (n : ℕ). n) result (max_of (map string_bytes texts.now)) }
{
    match texts {
        [] => Ok(DEFAULT_MAX),
        [text] => max_in(text.as_str()),
        _ => Err(WordsError::Usage),
    }
}

// The standard that a text names.
fn std_in(text: &str) -> Result<Std, WordsError>
    ensures { Gives (λ (s : Std). s) result (std_in text.now) }
{
    match text {
        "03" => Ok(Std::Cxx03),
        "11" => Ok(Std::Cxx11),
        _ => Err(WordsError::Usage),
    }
}

/// The standard, that of 2003 where no option says so.
pub fn std_of(texts: &[String]) -> Result<Std, WordsError>
    ensures { Gives (λ (s : Std). s) result (std_of (map string_bytes texts.now)) }
{
    match texts {
        [] => Ok(Std::Cxx03),
        [text] => std_in(text.as_str()),
        _ => Err(WordsError::Usage),
    }
}

/// Whether a switch stands, which stands at most once.
pub fn switch_of(texts: &[String]) -> Result<bool, WordsError>
    ensures { Gives (λ (on : Bool). on) result (switch_of (map string_bytes texts.now)) }
{
    match texts {
        [] => Ok(false),
        [_] => Ok(true),
        _ => Err(WordsError::Usage),
    }
}

// The script of each text.
fn each_script(alloc: Global, texts: &[String]) -> Result<Vec<Vec<(Reply, u32)>>, WordsError>
    ensures scripts { Gives (λ scripts. map (λ runs. runs.items) scripts.items) result (all_some script_of (map string_bytes texts.now)) }
    ensures count { IfOk result (λ scripts. length scripts.items ≡ length texts.now) }
{
    let mut scripts = Vec::new(alloc);
    for text in texts {
        let script = script_of(alloc, text.as_str())?;
        scripts.push(script)?;
    }
    Ok(scripts)
}

/// The scripts, in order, of which there are at most 64.
pub fn scripts_of(alloc: Global, texts: &[String]) -> Result<Vec<Vec<(Reply, u32)>>, WordsError>
    ensures scripts { Gives (λ scripts. map (λ runs. runs.items) scripts.items) result (scripts_of (map string_bytes texts.now)) }
    ensures few { IfOk result (λ scripts. length scripts.items ≤ 64) }
{
    if texts.len() <= MOST_SCRIPTS {
        each_script(alloc, texts)
    } else {
        Err(WordsError::Usage)
    }
}
