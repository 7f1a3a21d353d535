// Modules that note what is done to them: each call, each cleanup with its token, and the drop.
use crate::outside::{Outside, answer_with, holding, image_of};
use eh_driver::Status;
use eh_outer::{Module, Once, Reply};
use std::alloc::Global;
use std::cell::Cell;
use std::rc::Rc;
use std::test::Fail;

// A module that notes a digit for each call and for its drop, 8 and 9, and the token of each cleanup.
struct Noted {
    script: Once,
    notes: Rc<Cell<u32>>,
}

fn note(notes: &Cell<u32>, digit: u32) {
    notes.set(notes.get().wrapping_mul(10).wrapping_add(digit));
}

impl Drop for Noted {
    fn drop(self) {
        let Noted { script, notes } = self;
        drop(script);
        note(&notes, 9);
    }
}

impl Module for Noted {
    ghost view = { λ it. it.script.seen };

    ghost ints = { λ it. it.script.ints };

    fn call(&mut self, arg: i32) -> Reply {
        note(&self.notes, 8);
        self.script.call(arg)
    }

    fn cleanup(&mut self, token: u32) {
        note(&self.notes, token);
        self.script.cleanup(token);
    }
}

/// A source, whether events are printed, the replies of two modules, and the put that fails; and what comes by each of some commands: lines, status, and
/// what each module notes.
struct Trial {
    commands: &'static [&'static str],
    source: &'static str,
    trace: bool,
    replies: [&'static [Reply]; 2],
    fails: u64,
    lines: &'static str,
    status: Status,
    notes: [u32; 2],
}

const RAISES: &str =
    "int main() { int i = 0; while (i < 5) { try { __module(0, i); write_int(i); } catch (...) { write_int(10 + i); } i = i + 1; } }";

const THREE: &[Reply] = &[
    Reply::Raise(1),
    Reply::Raise(1),
    Reply::Raise(1),
    Reply::Value(0),
];

static TRIALS: &[Trial] = &[
    Trial {
        commands: &["mean", "run", "exec"],
        source: RAISES,
        trace: false,
        replies: [THREE, &[]],
        fails: 0,
        lines: "10\n11\n12\n3\n4\n= exit 0\n",
        status: Status::Done,
        notes: [818_181_889, 9],
    },
    // Nothing stops it, so it is not cleaned up.
    Trial {
        commands: &["mean", "run", "exec"],
        source: "int main() { __module(0, 1); return 0; }",
        trace: true,
        replies: [&[Reply::Raise(3)], &[]],
        fails: 0,
        lines: "! foreign 1 0 3\n= aborted\n",
        status: Status::Aborted,
        notes: [89, 9],
    },
    // Each module cleans up what is its own.
    Trial {
        commands: &["mean", "run", "exec"],
        source: "int main() { try { __module(1, 0); } catch (...) { } try { __module(0, 0); } catch (...) { } return 0; }",
        trace: true,
        replies: [&[Reply::Raise(2)], &[Reply::Raise(5)]],
        fails: 0,
        lines: "! foreign 1 1 5\n! enter 1\n! leave 1\n! clean 1 5\n! foreign 2 0 2\n! enter 2\n! leave 2\n! clean 0 2\n= exit 0\n",
        status: Status::Done,
        notes: [829, 859],
    },
    // The second line fails while the second exception is handled. A meaning is printed when it is over.
    Trial {
        commands: &["run", "exec"],
        source: RAISES,
        trace: false,
        replies: [THREE, &[]],
        fails: 2,
        lines: "10\n",
        status: Status::WriteFault,
        notes: [8189, 9],
    },
    Trial {
        commands: &["mean"],
        source: RAISES,
        trace: false,
        replies: [THREE, &[]],
        fails: 2,
        lines: "10\n",
        status: Status::WriteFault,
        notes: [818_181_889, 9],
    },
    Trial {
        commands: &["mean", "run"],
        source: "int main() { return x; }",
        trace: false,
        replies: [THREE, THREE],
        fails: 0,
        lines: "",
        status: Status::SourceRefused(30, 20),
        notes: [9, 9],
    },
];

// A module with these replies.
fn module_with(
    alloc: Global,
    replies: &[Reply],
    notes: &Rc<Cell<u32>>,
) -> Result<Box<dyn Module>, Fail> {
    let module = Noted {
        script: Once::new(alloc, replies.to_vec(alloc)?)?,
        notes: notes.clone()?,
    };
    Ok(Box::new(alloc, module)?)
}

// The file that a command takes: a source, or for `exec` its image.
fn file_of(alloc: Global, command: &str, source: &str) -> Result<Vec<u8>, Fail> {
    if command != "exec" {
        return Ok(source.as_bytes().to_vec(alloc)?);
    }
    image_of(alloc, source)
}

#[test]
fn of_two_modules(rt: HostRuntime) -> Result<(), Fail> {
    let alloc = rt.alloc();
    for trial in TRIALS {
        for command in trial.commands {
            let first = Rc::new(alloc, Cell::new(0))?;
            let second = Rc::new(alloc, Cell::new(0))?;
            let mut modules = Vec::new(alloc);
            modules.push(module_with(alloc, trial.replies[0], &first)?)?;
            modules.push(module_with(alloc, trial.replies[1], &second)?)?;
            let file = file_of(alloc, command, trial.source)?;
            let fails = [trial.fails];
            let outside = Outside {
                out_fails: fails.as_slice(),
                ..holding(file.as_slice())
            };
            let words = [*command, "SRC", "--trace"];
            let count = if trial.trace { 3 } else { 2 };
            let seen = answer_with(alloc, &words[..count], &outside, modules)?;
            assert_eq!(rt; seen.status, trial.status, "{command} {}", trial.source);
            assert_eq!(rt;
                seen.out.bytes(),
                trial.lines.as_bytes(),
                "{command} {}",
                trial.source
            );
            assert_eq!(rt;
                [first.get(), second.get()],
                trial.notes,
                "{command} {}",
                trial.source
            );
        }
    }
    Ok(())
}

// Where nothing is run, the modules are dropped.
#[test]
fn of_other_words(rt: HostRuntime) -> Result<(), Fail> {
    let alloc = rt.alloc();
    let rows: [(&[&str], Status); 5] = [
        (&[], Status::Usage),
        (&["run", "SRC", "--max=0"], Status::Usage),
        (&["run", "NONE"], Status::ReadFault),
        (&["compile", "SRC", "IMG"], Status::Done),
        (&["gen", "1"], Status::Done),
    ];
    for (words, status) in rows {
        let notes = Rc::new(alloc, Cell::new(0))?;
        let mut modules = Vec::new(alloc);
        modules.push(module_with(alloc, THREE, &notes)?)?;
        let seen = answer_with(alloc, words, &holding(RAISES.as_bytes()), modules)?;
        assert_eq!(rt; seen.status, status, "{words:?}");
        assert_eq!(rt; notes.get(), 9, "{words:?}");
    }
    Ok(())
}
