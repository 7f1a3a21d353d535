// Names on the command line, and the size of a source that is generated.
ghost use Rattle.std.specs.Prelude.{◌≡◌, ◌≤◌, IfSome, map, string_bytes};
ghost use Rattle.std.specs.List.{list_all};
ghost use Rattle.command_line.specs.Gives.{Gives};
ghost use Rattle.command_line.specs.Command.{are_named, at_least, at_most_one, exactly, greatest_size, inputs_for, is_size, one_to_eight, operands_for, source_size};

use crate::command::Verb;
use crate::error::WordsError;
use plain_text::number_of;

/// The greatest size of a source that is generated.
const GREATEST_SIZE: u64 = 2000;

/// The most harts.
const MOST_HARTS: usize = 8;

fn are_named(texts: &[String]) -> bool
    ensures { result ≡ are_named (map string_bytes texts.now) }
{
    texts.iter().all(|text| !text.is_empty())
}

/// So many names, none empty.
pub fn exactly(count: usize, names: Vec<String>) -> Result<Vec<String>, WordsError>
    ensures { Gives (λ found. map string_bytes found.items) result (exactly count (map string_bytes names.items)) }
{
    if names.len() == count && are_named(names.as_slice()) {
        Ok(names)
    } else {
        Err(WordsError::Usage)
    }
}

// So many texts or more, none empty.
fn at_least(count: usize, texts: Vec<String>) -> Result<Vec<String>, WordsError>
    ensures { Gives (λ found. map string_bytes found.items) result (at_least count (map string_bytes texts.items)) }
{
    if texts.len() >= count && are_named(texts.as_slice()) {
        Ok(texts)
    } else {
        Err(WordsError::Usage)
    }
}

// A name or none, and none empty.
fn at_most_one(names: Vec<String>) -> Result<Vec<String>, WordsError>
    ensures { Gives (λ found. map string_bytes found.items) result (at_most_one (map string_bytes names.items)) }
{
    if names.len() <= 1 && are_named(names.as_slice()) {
        Ok(names)
    } else {
        Err(WordsError::Usage)
    }
}

// One to eight names, none empty.
fn one_to_eight(names: Vec<String>) -> Result<Vec<String>, WordsError>
    ensures { Gives (λ found. map string_bytes found.items) result (one_to_eight (map string_bytes names.items)) }
{
    if 1 <= names.len() && names.len() <= MOST_HARTS && are_named(names.as_slice()) {
        Ok(names)
    } else {
        Err(WordsError::Usage)
    }
}

/// The names of inputs: one for each hart where there are several, and else one at most.
pub fn inputs_for(verb: Verb, names: Vec<String>) -> Result<Vec<String>, WordsError>
    ensures { Gives (λ found. map string_bytes found.items) result (inputs_for verb (map string_bytes names.items)) }
{
    match verb {
        Verb::Harts => one_to_eight(names),
        _ => at_most_one(names),
    }
}

/// The size of a source that a text writes, 1 to 2,000.
pub fn source_size(text: &str) -> Option<u32>
    ensures value { result ≡ source_size text.now }
    ensures most { IfSome result (λ n. n ≤ greatest_size) }
{
    match number_of(GREATEST_SIZE, text.as_bytes()) {
        None | Some(0) => None,
        Some(size) => Some(size as u32),
    }
}

fn are_sizes(texts: &[String]) -> bool
    ensures { result ≡ list_all is_size (map string_bytes texts.now) }
{
    texts
        .iter()
        .all(|text| source_size(text.as_str()).is_some())
}

/// So many operands, or more where there are places: names of files, but sizes where a source is generated.
pub fn operands_for(verb: Verb, count: usize, names: Vec<String>) -> Result<Vec<String>, WordsError>
    ensures { Gives (λ found. map string_bytes found.items) result (operands_for verb count (map string_bytes names.items)) }
{
    match verb {
        Verb::Gen => {
            if are_sizes(names.as_slice()) {
                exactly(count, names)
            } else {
                Err(WordsError::Usage)
            }
        }
        Verb::At => at_least(count, names),
        _ => exactly(count, names),
    }
}
