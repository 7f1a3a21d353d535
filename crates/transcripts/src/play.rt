// A transcript, line by line.
use crate::answer::{Answer, answered};
use crate::asked::Asked;
use crate::files::Files;
use crate::text::{number_of, numbered, put_hex, put_text};
use crate::worked::put_worked;
use std::alloc::{AllocError, Global};

/// A transcript on its way: the files, and what is asked of the next command.
#[derive(Drop)]
pub struct Player {
    files: Files,
    asked: Asked,
}

/// The words of a line; `''` is the empty one.
pub fn words_of(alloc: Global, line: &str) -> Result<Vec<String>, AllocError> {
    let mut words = Vec::new(alloc);
    for word in line.split_whitespace() {
        let text = if word == "''" { "" } else { word };
        words.push(String::from_str(alloc, text)?)?;
    }
    Ok(words)
}

// The numbers of a line.
fn numbers_of(alloc: Global, line: &str) -> Result<Vec<u64>, AllocError> {
    let mut numbers = Vec::new(alloc);
    for word in line.split_whitespace() {
        numbers.push(number_of(Some(word)))?;
    }
    Ok(numbers)
}

/// Puts a status that is not 0.
pub fn put_status(alloc: Global, shown: &mut String, answer: &Answer) -> Result<(), AllocError> {
    let number = answer.status.number();
    if number == 0 {
        return Ok(());
    }
    shown.push_str(format!(in alloc; "[status {number}]\n")?.as_str())
}

impl Player {
    pub fn new(alloc: Global) -> Player {
        Player {
            files: Files::new(alloc),
            asked: Asked::nothing(alloc),
        }
    }

    // A file has this text.
    fn file(&mut self, alloc: Global, rest: &str) -> Result<(), AllocError> {
        let (name, text) = rest.split_once(' ').unwrap_or((rest, ""));
        let mut bytes = Vec::new(alloc);
        put_text(&mut bytes, text)?;
        self.files.set(alloc, name, bytes)
    }

    // A file has a text more, once for each number from one to another.
    fn more(&mut self, alloc: Global, rest: &str) -> Result<(), AllocError> {
        let mut parts = rest.splitn(4, ' ');
        let name = parts.next().unwrap_or("");
        let first = number_of(parts.next());
        let last = number_of(parts.next());
        let piece = parts.next().unwrap_or("");
        let mut bytes = self.files.copy_of(alloc, name)?;
        for number in first..last.saturating_add(1) {
            put_text(&mut bytes, numbered(alloc, piece, number)?.as_str())?;
        }
        self.files.set(alloc, name, bytes)
    }

    // A file has these bytes from a place on.
    fn bytes(&mut self, alloc: Global, rest: &str) -> Result<(), AllocError> {
        let mut parts = rest.split_whitespace();
        let name = parts.next().unwrap_or("");
        let at = number_of(parts.next()) as usize;
        let held = self.files.copy_of(alloc, name)?;
        let mut bytes = held.get(..at).unwrap_or(held.as_slice()).to_vec(alloc)?;
        for digits in parts {
            put_hex(&mut bytes, digits)?;
        }
        let behind = held.get(bytes.len()..).unwrap_or(b"");
        bytes.extend_from_slice(behind)?;
        self.files.set(alloc, name, bytes)
    }

    // A file has so many of its bytes.
    fn cut(&mut self, alloc: Global, rest: &str) -> Result<(), AllocError> {
        let (name, length) = rest.split_once(' ').unwrap_or((rest, ""));
        let mut bytes = self.files.copy_of(alloc, name)?;
        bytes.truncate(number_of(Some(length)) as usize);
        self.files.set(alloc, name, bytes)
    }

    // A file is as another.
    fn copy(&mut self, alloc: Global, rest: &str) -> Result<(), AllocError> {
        let (from, to) = rest.split_once(' ').unwrap_or((rest, ""));
        let bytes = self.files.copy_of(alloc, from)?;
        self.files.set(alloc, to, bytes)
    }

    // Calls that fail.
    fn fails(&mut self, alloc: Global, rest: &str) -> Result<(), AllocError> {
        let (what, numbers) = rest.split_once(' ').unwrap_or((rest, ""));
        let numbers = numbers_of(alloc, numbers)?;
        match what {
            "store" => self.asked.store_fails = numbers,
            "out" => self.asked.out_fails = numbers,
            _ => self.asked.err_fails = numbers,
        }
        Ok(())
    }

    // Whether two files are the same.
    fn put_same(&self, shown: &mut String, rest: &str) -> Result<(), AllocError> {
        let (one, other) = rest.split_once(' ').unwrap_or((rest, ""));
        let is_same = self.files.get(one) == self.files.get(other);
        shown.push_str(if is_same {
            "they are the same\n"
        } else {
            "they differ\n"
        })
    }

    // What a command prints.
    fn put_answer(
        &mut self,
        alloc: Global,
        shown: &mut String,
        rest: &str,
    ) -> Result<(), AllocError> {
        let words = words_of(alloc, rest)?;
        let answer = answered(alloc, &mut self.files, &self.asked, &words)?;
        self.asked.put_lines(alloc, shown, answer.out_text())?;
        shown.push_str(answer.err_text())?;
        put_status(alloc, shown, &answer)?;
        self.asked = Asked::nothing(alloc);
        Ok(())
    }

    // What a worked program shows.
    fn put_program(
        &mut self,
        alloc: Global,
        shown: &mut String,
        rest: &str,
    ) -> Result<(), AllocError> {
        put_worked(alloc, shown, &mut self.files, &self.asked, rest)?;
        self.asked = Asked::nothing(alloc);
        Ok(())
    }

    // Does what a line says, and puts what comes; false where it says nothing, as a line that was printed.
    fn put(
        &mut self,
        alloc: Global,
        shown: &mut String,
        verb: &str,
        rest: &str,
    ) -> Result<bool, AllocError> {
        match verb {
            "#" => {}
            "" if rest.is_empty() => {}
            "file" => self.file(alloc, rest)?,
            "more" => self.more(alloc, rest)?,
            "bytes" => self.bytes(alloc, rest)?,
            "cut" => self.cut(alloc, rest)?,
            "copy" => self.copy(alloc, rest)?,
            "fails" => self.fails(alloc, rest)?,
            "room" => self.asked.room = number_of(Some(rest)) as usize,
            "only" => self.asked.only = Some(String::from_str(alloc, rest)?),
            "last" => self.asked.last = Some(number_of(Some(rest)) as usize),
            "same" => self.put_same(shown, rest)?,
            "$" => self.put_answer(alloc, shown, rest)?,
            "worked" => self.put_program(alloc, shown, rest)?,
            _ => return Ok(false),
        }
        Ok(true)
    }

    /// What a line of a transcript becomes: itself and what comes behind it, or nothing where it is a line that was printed.
    pub fn play(&mut self, alloc: Global, line: &str) -> Result<String, AllocError> {
        let (verb, rest) = line.split_once(' ').unwrap_or((line, ""));
        let mut behind = String::new(alloc);
        if self.put(alloc, &mut behind, verb, rest)? {
            format!(in alloc; "{line}\n{behind}")
        } else {
            Ok(behind)
        }
    }
}
