// Worked programs: SRC means its lines, and every way to run it shows the same.
use crate::answer::{Answer, answered};
use crate::asked::Asked;
use crate::files::Files;
use crate::play::put_status;
use eh_driver::Status;
use std::alloc::{AllocError, Global};

// Which of a row's options a command takes.
#[derive(Clone, Copy)]
enum Taken {
    All,
    Nothing,
    OfSource,
    OfImage,
    AtOnce,
    Untraced,
}

impl Taken {
    fn takes(self, option: &str) -> bool {
        let is_of_source = option.starts_with("--std=");
        // Turns of a meaning are no steps of a machine.
        let is_most = option.starts_with("--max=");
        match self {
            Taken::All => true,
            Taken::Nothing => false,
            Taken::OfSource => is_of_source,
            Taken::OfImage => !is_most && !is_of_source,
            Taken::AtOnce => !is_most,
            Taken::Untraced => option != "--trace",
        }
    }
}

// Words of which some are options that a command takes.
fn words_with(
    alloc: Global,
    first: &[&str],
    options: &str,
    taken: Taken,
) -> Result<Vec<String>, AllocError> {
    let mut words = Vec::new(alloc);
    for word in first {
        words.push(String::from_str(alloc, word)?)?;
    }
    for option in options.split_whitespace() {
        if taken.takes(option) {
            words.push(String::from_str(alloc, option)?)?;
        }
    }
    Ok(words)
}

// What a command answers, with those of the options that it takes.
fn asked_for(
    alloc: Global,
    files: &mut Files,
    first: &[&str],
    options: &str,
    taken: Taken,
) -> Result<Answer, AllocError> {
    let words = words_with(alloc, first, options, taken)?;
    let nothing = Asked::nothing(alloc);
    answered(alloc, files, &nothing, &words)
}

// The lines that are no events.
fn without_events(alloc: Global, lines: &str) -> Result<String, AllocError> {
    let mut plain = String::new(alloc);
    for line in lines.lines() {
        if !line.starts_with("! ") {
            plain.push_str(line)?;
            plain.push_str("\n")?;
        }
    }
    Ok(plain)
}

// Says of a way to run a program that it shows something else, and what.
fn put_other(
    alloc: Global,
    shown: &mut String,
    way: &str,
    found: &Answer,
) -> Result<(), AllocError> {
    shown.push_str(way)?;
    shown.push_str(" shows something else:\n")?;
    shown.push_str(found.out_text())?;
    shown.push_str(found.err_text())?;
    put_status(alloc, shown, found)
}

// Without `--trace` the events are left out.
fn put_untraced(
    alloc: Global,
    shown: &mut String,
    files: &mut Files,
    options: &str,
    meant: &Answer,
) -> Result<(), AllocError> {
    let plain = without_events(alloc, meant.out_text())?;
    let found = asked_for(alloc, files, &["mean", "SRC"], options, Taken::Untraced)?;
    if found.out_text() != plain.as_str() || found.status != meant.status {
        put_other(alloc, shown, "mean without --trace", &found)?;
    }
    Ok(())
}

// It is compiled, and the image is clean.
fn put_stored(
    alloc: Global,
    shown: &mut String,
    files: &mut Files,
    options: &str,
) -> Result<(), AllocError> {
    let made = asked_for(
        alloc,
        files,
        &["compile", "SRC", "IMG"],
        options,
        Taken::OfSource,
    )?;
    if made.status != Status::Done {
        put_other(alloc, shown, "compile", &made)?;
    }
    let clean = asked_for(alloc, files, &["check", "IMG"], "", Taken::Nothing)?;
    if clean.status != Status::Done {
        put_other(alloc, shown, "check", &clean)?;
    }
    Ok(())
}

// Its runs in one command and in two show what it means, and count the same.
fn put_runs(
    alloc: Global,
    shown: &mut String,
    files: &mut Files,
    options: &str,
    meant: &Answer,
) -> Result<(), AllocError> {
    let stored = asked_for(alloc, files, &["exec", "IMG"], options, Taken::OfImage)?;
    if !stored.is_as(meant) {
        put_other(alloc, shown, "exec", &stored)?;
    }
    let at_once = asked_for(alloc, files, &["run", "SRC"], options, Taken::AtOnce)?;
    if !at_once.is_as(meant) {
        put_other(alloc, shown, "run", &at_once)?;
    }
    let counted = asked_for(
        alloc,
        files,
        &["exec", "IMG", "--count"],
        options,
        Taken::OfImage,
    )?;
    let found = asked_for(
        alloc,
        files,
        &["run", "SRC", "--count"],
        options,
        Taken::AtOnce,
    )?;
    if !found.is_as(&counted) {
        put_other(alloc, shown, "run --count", &found)?;
    }
    Ok(())
}

// Its image, packed, is clean and runs as before.
fn put_packed(
    alloc: Global,
    shown: &mut String,
    files: &mut Files,
    options: &str,
    meant: &Answer,
) -> Result<(), AllocError> {
    for first in [
        ["pack", "IMG", "OUT"].as_slice(),
        ["check", "OUT"].as_slice(),
    ] {
        let found = asked_for(alloc, files, first, "", Taken::Nothing)?;
        if found.status != Status::Done {
            put_other(alloc, shown, "pack", &found)?;
        }
    }
    let found = asked_for(alloc, files, &["exec", "OUT"], options, Taken::OfImage)?;
    if !found.is_as(meant) {
        put_other(alloc, shown, "exec of the packed image", &found)?;
    }
    Ok(())
}

/// Puts what SRC means with these options, and whatever shows something else: its meaning without events; and, where it ends by itself,
/// the run of its stored image, of this packed, and of the source at once.
pub fn put_worked(
    alloc: Global,
    shown: &mut String,
    files: &mut Files,
    asked: &Asked,
    options: &str,
) -> Result<(), AllocError> {
    let meant = asked_for(alloc, files, &["mean", "SRC"], options, Taken::All)?;
    asked.put_lines(alloc, shown, meant.out_text())?;
    shown.push_str(meant.err_text())?;
    put_status(alloc, shown, &meant)?;
    put_untraced(alloc, shown, files, options, &meant)?;
    if meant.status == Status::Done || meant.status == Status::Aborted {
        put_stored(alloc, shown, files, options)?;
        put_runs(alloc, shown, files, options, &meant)?;
        put_packed(alloc, shown, files, options, &meant)?;
    }
    Ok(())
}
