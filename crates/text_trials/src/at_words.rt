// Words of `at`: the places, what comes by, and words that are refused. Written by hand from the rules.
use command_line::{Command, Raised, WordsError, read_words};
use std::alloc::{AllocError, Global};
use std::test::Fail;

const USAGE: &str = "usage";

fn raised_text(alloc: Global, raised: Raised) -> Result<String, AllocError> {
    match raised {
        Raised::Untyped => "untyped".to_string(alloc),
        Raised::Typed(address) => format!(in alloc; "typed {address}"),
        Raised::Foreign => "foreign".to_string(alloc),
        Raised::Forced => "forced".to_string(alloc),
    }
}

// What is asked, or the error, as a text.
fn shown(alloc: Global, read: Result<Command, WordsError>) -> Result<String, AllocError> {
    match read {
        Err(error) => format!(in alloc; "{error}"),
        Ok(command) => {
            let raised = raised_text(alloc, command.raised)?;
            format!(in alloc;
                "{:?} {} {:?} {raised}",
                command.verb,
                command.operands.len(),
                command.places
            )
        }
    }
}

fn owned(alloc: Global, words: &[&str]) -> Result<Vec<String>, AllocError> {
    let mut all = Vec::new(alloc);
    for word in words {
        all.push(word.to_string(alloc)?)?;
    }
    Ok(all)
}

// Words behind the program's name.
static WORDS: &[(&[&str], &str)] = &[
    (&["at", "f", "16"], "At 2 [16] untyped"),
    (&["at", "f", "0x10", "0", "0x0"], "At 4 [16, 0, 0] untyped"),
    (
        &["at", "f", "0xFFffFFffFFffFFff", "18446744073709551615"],
        "At 3 [18446744073709551615, 18446744073709551615] untyped",
    ),
    (
        &["at", "f", "0x00000000000000000001aF"],
        "At 2 [431] untyped",
    ),
    (
        &["at", "--type=0x10380", "f", "0x1014c"],
        "At 2 [65868] typed 66432",
    ),
    (&["at", "f", "7", "--type", "8"], "At 2 [7] typed 8"),
    (&["at", "f", "7", "--type=0"], "At 2 [7] typed 0"),
    (&["at", "f", "7", "--type=foreign"], "At 2 [7] foreign"),
    (&["at", "f", "--type", "forced", "7"], "At 2 [7] forced"),
    (&["at", "--", "-f", "7"], "At 2 [7] untyped"),
    (&["at"], USAGE),
    (&["at", "f"], USAGE),
    (&["at", "", "7"], USAGE),
    (&["at", "f", ""], USAGE),
    (&["at", "f", "0x"], USAGE),
    (&["at", "f", "0X10"], USAGE),
    (&["at", "f", "x10"], USAGE),
    (&["at", "f", "10a"], USAGE),
    (&["at", "f", "0x1g"], USAGE),
    (&["at", "f", "0x+1"], USAGE),
    (&["at", "f", "+1"], USAGE),
    (&["at", "f", "01"], USAGE),
    (&["at", "f", "7", "main"], USAGE),
    (&["at", "f", "--", "-1"], USAGE),
    (&["at", "f", "0x10000000000000000"], USAGE),
    (&["at", "f", "18446744073709551616"], USAGE),
    (&["at", "f", "7", "--type"], USAGE),
    (&["at", "f", "7", "--type="], USAGE),
    (&["at", "f", "7", "--type=Foreign"], USAGE),
    (&["at", "f", "7", "--type=force"], USAGE),
    (&["at", "f", "7", "--type=0x"], USAGE),
    (&["at", "f", "7", "--type=1", "--type=1"], USAGE),
    (&["at", "f", "7", "--trace"], USAGE),
    (&["at", "f", "7", "--foreign=v1"], USAGE),
    (&["dump", "f", "--type=1"], USAGE),
    (&["dump", "f"], "Dump 1 [] untyped"),
    (&["pack", "f", "7"], "Pack 2 [] untyped"),
];

#[test]
fn places_and_what_comes_by(rt: HostRuntime) -> Result<(), Fail> {
    for (words, want) in WORDS.iter() {
        let words = owned(rt.alloc(), *words)?;
        let read = read_words(rt.alloc(), &words);
        assert_eq!(rt; shown(rt.alloc(), read)?.as_str(), *want, "{words:?}");
    }
    Ok(())
}
