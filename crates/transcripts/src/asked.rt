// What a transcript asks of its next command.
use std::alloc::{AllocError, Global};

/// Which calls of the store and puts fail, how much standard output can take, and which lines are shown.
#[derive(Drop)]
pub struct Asked {
    pub store_fails: Vec<u64>,
    pub out_fails: Vec<u64>,
    pub err_fails: Vec<u64>,
    pub room: usize,
    /// Lines that have this text.
    pub only: Option<String>,
    /// So many lines from the end, behind how many stand before them.
    pub last: Option<usize>,
}

impl Asked {
    /// Nothing fails, there is room for 64 KiB, and all lines are shown.
    pub fn nothing(alloc: Global) -> Asked {
        Asked {
            store_fails: Vec::new(alloc),
            out_fails: Vec::new(alloc),
            err_fails: Vec::new(alloc),
            room: 0x1_0000,
            only: None,
            last: None,
        }
    }

    /// Puts those lines of a text that are asked for.
    pub fn put_lines(
        &self,
        alloc: Global,
        shown: &mut String,
        text: &str,
    ) -> Result<(), AllocError> {
        let count = text.lines().count();
        let skipped = count.saturating_sub(self.last.unwrap_or(count));
        if skipped > 0 {
            shown.push_str(format!(in alloc; "({skipped} lines)\n")?.as_str())?;
        }
        for line in text.lines().skip(skipped) {
            let is_shown = match &self.only {
                Some(part) => line.contains(part.as_str()),
                None => true,
            };
            if is_shown {
                shown.push_str(line)?;
                shown.push_str("\n")?;
            }
        }
        Ok(())
    }
}
