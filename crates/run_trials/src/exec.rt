// What `ehc exec` prints of images, and how it ends.
use crate::code::{ASKS, ILLEGAL, LOST, THROWS};
use crate::file::{PARTS, file_of};
use command_line::scripts;
use eh_driver::{Status, ehc};
use eh_outer::{MemSink, MemStore, Module, Runs};
use rv64_isa::FaultKind;
use std::alloc::Global;
use std::test::Fail;

/// A program in the file IMG, words, and what comes of them. The file IN has the byte 65.
struct Row {
    code: &'static [u32],
    words: &'static [&'static str],
    lines: &'static str,
    text: &'static str,
    status: Status,
}

static ROWS: &[Row] = &[
    Row {
        code: THROWS,
        words: &["exec", "IMG"],
        lines: "5\n= exit 0\n",
        text: "",
        status: Status::Done,
    },
    Row {
        code: THROWS,
        words: &["exec", "IMG", "--trace", "--count"],
        lines: "! make 1\n! enter 1\n5\n! leave 1\n! destroy 1\n! free 1\n= exit 0\n= count 25\n",
        text: "",
        status: Status::Done,
    },
    Row {
        code: THROWS,
        words: &["exec", "--max=24", "--count", "IMG"],
        lines: "5\n= budget\n= count 24\n",
        text: "",
        status: Status::Budget,
    },
    Row {
        code: ASKS,
        words: &["exec", "IMG", "--foreign=v4", "--in=IN"],
        lines: "4\n65\n= stack\n",
        text: "",
        status: Status::Stack,
    },
    Row {
        code: ASKS,
        words: &["exec", "IMG"],
        lines: "0\n-1\n= stack\n",
        text: "",
        status: Status::Stack,
    },
    Row {
        code: ASKS,
        words: &["exec", "IMG", "--foreign=r7", "--trace"],
        lines: "! foreign 1 0 7\n= aborted\n",
        text: "",
        status: Status::Aborted,
    },
    Row {
        code: LOST,
        words: &["exec", "IMG", "--count"],
        lines: "= fault call 0x0000000000010104\n= count 1\n",
        text: "",
        status: Status::MachineFault(FaultKind::Call, 0x1_0104),
    },
    Row {
        code: ILLEGAL,
        words: &["exec", "IMG"],
        lines: "= fault illegal 0x0000000000010100\n",
        text: "",
        status: Status::MachineFault(FaultKind::Illegal, 0x1_0100),
    },
    Row {
        code: THROWS,
        words: &["exec", "NO"],
        lines: "",
        text: "ehc: read fault: NO\n",
        status: Status::ReadFault,
    },
    Row {
        code: THROWS,
        words: &["exec", "IN", "--in=NO"],
        lines: "",
        text: "ehc: read fault: NO\n",
        status: Status::ReadFault,
    },
    Row {
        code: THROWS,
        words: &["exec", "IN"],
        lines: "",
        text: "ehc: image refused: 60 at 0\n",
        status: Status::ImageRefused {
            number: 60,
            place: 0,
            location: 0,
            other: 0,
        },
    },
    Row {
        code: THROWS,
        words: &["exec", "IMG", "IMG"],
        lines: "",
        text: "ehc: usage\n",
        status: Status::Usage,
    },
];

// What the words of a row come to over a sink that fails at these puts.
fn answer(alloc: Global, row: &Row, fails: &[u64]) -> Result<(Status, MemSink, MemSink), Fail> {
    let mut words = Vec::new(alloc);
    for word in row.words {
        words.push(String::from_str(alloc, word)?)?;
    }
    let mut files = Vec::new(alloc);
    let image = file_of(alloc, row.code, 3, PARTS)?;
    files.push((String::from_str(alloc, "IMG")?, image))?;
    files.push((String::from_str(alloc, "IN")?, b"A".to_vec(alloc)?))?;
    let mut store = MemStore::new(files, Vec::new(alloc));
    let mut modules: Vec<Box<dyn Module>> = Vec::new(alloc);
    if row.status != Status::Usage {
        for script in scripts(alloc, &words)? {
            modules.push(Box::new(alloc, Runs::new(alloc, script)?)?)?;
        }
    }
    if modules.len() > 64 {
        return Err(Fail::new("more than 64 modules"));
    }
    let mut out = MemSink::new(alloc, 0x400, fails.to_vec(alloc)?)?;
    let mut err = MemSink::new(alloc, 0x100, Vec::new(alloc))?;
    let status = ehc(alloc, &words, &mut store, &mut out, &mut err, modules);
    Ok((status, out, err))
}

#[test]
fn images(rt: HostRuntime) -> Result<(), Fail> {
    for row in ROWS {
        let (status, out, err) = answer(rt.alloc(), row, &[])?;
        assert_eq!(rt; status, row.status, "{:?}", row.words);
        assert_eq!(rt; out.bytes(), row.lines.as_bytes(), "{:?}", row.words);
        assert_eq!(rt; err.bytes(), row.text.as_bytes(), "{:?}", row.words);
    }
    Ok(())
}

// Each of the lines of the second row fails in turn: those before it are written.
#[test]
fn puts_that_fail(rt: HostRuntime) -> Result<(), Fail> {
    let row = &ROWS[1];
    let mut written = String::new(rt.alloc());
    let mut number = 0u64;
    for line in row.lines.lines() {
        number = number.wrapping_add(1);
        let (status, out, err) = answer(rt.alloc(), row, &[number])?;
        assert_eq!(rt; status, Status::WriteFault, "{number}");
        assert_eq!(rt; out.bytes(), written.as_bytes(), "{number}");
        assert_eq!(rt; err.bytes(), b"ehc: write fault\n".as_slice(), "{number}");
        written.push_str(line)?;
        written.push_str("\n")?;
    }
    assert_eq!(rt; number, 8);
    Ok(())
}
