// What words are read as, over all options and over all verbs. Written by hand from the rules.
use command_line::{Command, WordsError, read_words, scripts};
use cxx_ast::standard::Std;
use std::alloc::{AllocError, Global};
use std::test::Fail;

const USAGE: &str = "usage";

// The command, or the error, as a text.
fn shown(alloc: Global, read: Result<Command, WordsError>) -> Result<String, AllocError> {
    match read {
        Ok(c) => format!(in alloc;
            "{:?} {:?} {:?} {} {} {} {:?}",
            c.verb, c.operands, c.inputs, c.max, c.trace, c.count, c.scripts
        ),
        Err(error) => format!(in alloc; "{error}"),
    }
}

fn owned(alloc: Global, words: &[&str]) -> Result<Vec<String>, AllocError> {
    let mut all = Vec::new(alloc);
    for word in words {
        all.push(word.to_string(alloc)?)?;
    }
    Ok(all)
}

// Words behind `run`, which takes every option.
static BEHIND: &[(&[&str], &str)] = &[
    (&["a", "c"], USAGE),
    (&["-b"], USAGE),
    (&["-1"], USAGE),
    (&["a", "-h"], USAGE),
    (&["a", "--help"], USAGE),
    (&["a", "--version"], USAGE),
    (
        &["--", "--max=3"],
        "Run [\"--max=3\"] [] 10000000 false false []",
    ),
    (&["--", "--"], "Run [\"--\"] [] 10000000 false false []"),
    (&["--", "a", "--trace"], USAGE),
    (&["a", "--"], "Run [\"a\"] [] 10000000 false false []"),
    (
        &["--trace", "a", "--max=7", "--count", "--in=f"],
        "Run [\"a\"] [\"f\"] 7 true true []",
    ),
    (
        &["a", "--max", "7", "--in", "-"],
        "Run [\"a\"] [\"-\"] 7 false false []",
    ),
    (&["a", "--in", "-f"], USAGE),
    (&["a", "--in", "--", "f"], USAGE),
    (&["a", "--in"], USAGE),
    (&["a", "--in", "--trace"], USAGE),
    (&["a", "--in="], USAGE),
    (&["a", "--in", ""], USAGE),
    (
        &["a", "--in=-f"],
        "Run [\"a\"] [\"-f\"] 10000000 false false []",
    ),
    (
        &["a", "--in=f=g"],
        "Run [\"a\"] [\"f=g\"] 10000000 false false []",
    ),
    (&["a", "--in=f", "--in=f"], USAGE),
    (&["a", "--trace", "--trace"], USAGE),
    (&["a", "--trace="], USAGE),
    (&["a", "--trace=1"], USAGE),
    (&["a", "--tra"], USAGE),
    (&["a", "--=f"], USAGE),
    (&["a", "--operand=c"], USAGE),
    (&["a", "---trace"], USAGE),
    (&["a", "--max=0"], USAGE),
    (&["a", "--max=007"], USAGE),
    (&["a", "--max=+7"], USAGE),
    (&["a", "--max="], USAGE),
    (&["a", "--max=7x"], USAGE),
    (&["a", "--max=1", "--max=1"], USAGE),
    (
        &["a", "--max=1099511627776"],
        "Run [\"a\"] [] 1099511627776 false false []",
    ),
    (&["a", "--max=1099511627777"], USAGE),
    (&["a", "--max=99999999999999999999999"], USAGE),
    (
        &["a", "--foreign=v5"],
        "Run [\"a\"] [] 10000000 false false [[(Value(5), 1)]]",
    ),
    (
        &["a", "--foreign=r7*2,v-1", "--foreign", "v0*1000000"],
        "Run [\"a\"] [] 10000000 false false [[(Raise(7), 2), (Value(-1), 1)], [(Value(0), 1000000)]]",
    ),
    (
        &["a", "--foreign=v-2147483648,v2147483647,r4294967295"],
        "Run [\"a\"] [] 10000000 false false [[(Value(-2147483648), 1), (Value(2147483647), 1), (Raise(4294967295), 1)]]",
    ),
    (&["a", "--foreign=v2147483648"], USAGE),
    (&["a", "--foreign=v-2147483649"], USAGE),
    (&["a", "--foreign=r4294967296"], USAGE),
    (&["a", "--foreign=v-0"], USAGE),
    (&["a", "--foreign=v00"], USAGE),
    (&["a", "--foreign=v+1"], USAGE),
    (&["a", "--foreign=r-1"], USAGE),
    (&["a", "--foreign=v"], USAGE),
    (&["a", "--foreign=x1"], USAGE),
    (&["a", "--foreign="], USAGE),
    (&["a", "--foreign=v1,"], USAGE),
    (&["a", "--foreign=,v1"], USAGE),
    (&["a", "--foreign=v1*0"], USAGE),
    (&["a", "--foreign=v1*01"], USAGE),
    (&["a", "--foreign=v1*"], USAGE),
    (&["a", "--foreign=v1*2*3"], USAGE),
    (&["a", "--foreign=v1*1000001"], USAGE),
    (
        &["a", "--foreign=v1*999999,r2"],
        "Run [\"a\"] [] 10000000 false false [[(Value(1), 999999), (Raise(2), 1)]]",
    ),
    (&["a", "--foreign=v1*999999,r2*2"], USAGE),
];

#[test]
fn all_options(rt: HostRuntime) -> Result<(), Fail> {
    for (behind, want) in BEHIND.iter() {
        let mut words = owned(rt.alloc(), &["run"])?;
        for word in behind.iter() {
            words.push(word.to_string(rt.alloc())?)?;
        }
        let read = read_words(rt.alloc(), &words);
        assert_eq!(rt; shown(rt.alloc(), read)?.as_str(), *want, "{words:?}");
    }
    Ok(())
}

// 64 scripts, and one more.
#[test]
fn as_many_scripts_as_may_be(rt: HostRuntime) -> Result<(), Fail> {
    let mut words = owned(rt.alloc(), &["run", "a"])?;
    for _ in 0..64 {
        words.push("--foreign=v1".to_string(rt.alloc())?)?;
    }
    let read = read_words(rt.alloc(), &words)?;
    assert_eq!(rt; read.scripts.len(), 64);
    words.push("--foreign=v1".to_string(rt.alloc())?)?;
    assert!(rt; matches!(read_words(rt.alloc(), &words), Err(WordsError::Usage)));
    Ok(())
}

// Words behind the program's name.
static WORDS: &[(&[&str], &str)] = &[
    (&["run", "f"], "Run [\"f\"] [] 10000000 false false []"),
    (&["check", "f"], "Check [\"f\"] [] 10000000 false false []"),
    (
        &["dump", "--", "-f"],
        "Dump [\"-f\"] [] 10000000 false false []",
    ),
    (
        &["frames", "f"],
        "Frames [\"f\"] [] 10000000 false false []",
    ),
    (
        &["doubts", "f"],
        "Doubts [\"f\"] [] 10000000 false false []",
    ),
    (
        &["run", "f", "--"],
        "Run [\"f\"] [] 10000000 false false []",
    ),
    (&["run", "-"], "Run [\"-\"] [] 10000000 false false []"),
    (&[], USAGE),
    (&["run"], USAGE),
    (&["run", ""], USAGE),
    (&["run", "f", "g"], USAGE),
    (&["run", "-f"], USAGE),
    (&["run", "f", "--max=1"], "Run [\"f\"] [] 1 false false []"),
    (
        &["run", "--count", "f", "--trace", "--in", "g"],
        "Run [\"f\"] [\"g\"] 10000000 true true []",
    ),
    (&["run", "f", "--max=0"], USAGE),
    (&["check", "f", "--trace"], USAGE),
    (&["dump", "f", "--max=1"], USAGE),
    (&["frames", "f", "g"], USAGE),
    (&["doubts", "f", "g"], USAGE),
    (&["", "f"], USAGE),
    (
        &["compile", "f", "g"],
        "Compile [\"f\", \"g\"] [] 10000000 false false []",
    ),
    (&["compile", "f"], USAGE),
    (&["compile", "f", "g", "h"], USAGE),
    (&["compile", "f", "g", "--trace"], USAGE),
    (&["compile", "f", "g", "--std=14"], USAGE),
    (&["exec", "f", "--std=11"], USAGE),
    (&["check", "f", "--std=11"], USAGE),
    (&["gen", "1", "--std=03"], USAGE),
    (&["run", "f", "--std"], USAGE),
    (&["run", "f", "--std="], USAGE),
    (&["run", "f", "--std=3"], USAGE),
    (&["run", "f", "--std=c++11"], USAGE),
    (&["run", "f", "--std=11", "--std=11"], USAGE),
    (&["exec", "f"], "Exec [\"f\"] [] 10000000 false false []"),
    (
        &["exec", "--count", "f", "--trace", "--in=g", "--max=7"],
        "Exec [\"f\"] [\"g\"] 7 true true []",
    ),
    (&["exec", "f", "--count", "--count"], USAGE),
    (&["exec", "f", "--foreign"], USAGE),
    (&["exec"], USAGE),
    (
        &["harts", "f", "g", "--in=a"],
        "Harts [\"f\", \"g\"] [\"a\"] 10000000 false false []",
    ),
    (
        &[
            "harts", "--in=a", "f", "--in", "b", "--trace", "g", "--in=a",
        ],
        "Harts [\"f\", \"g\"] [\"a\", \"b\", \"a\"] 10000000 true false []",
    ),
    (
        &[
            "harts", "f", "g", "--in=1", "--in=2", "--in=3", "--in=4", "--in=5", "--in=6",
            "--in=7", "--in=8",
        ],
        "Harts [\"f\", \"g\"] [\"1\", \"2\", \"3\", \"4\", \"5\", \"6\", \"7\", \"8\"] 10000000 false false []",
    ),
    (
        &[
            "harts", "f", "g", "--in=1", "--in=2", "--in=3", "--in=4", "--in=5", "--in=6",
            "--in=7", "--in=8", "--in=9",
        ],
        USAGE,
    ),
    (&["harts", "f", "g"], USAGE),
    (&["harts", "f", "--in=a"], USAGE),
    (&["harts", "f", "g", "h", "--in=a"], USAGE),
    (&["harts", "f", "g", "--in="], USAGE),
    (&["harts", "f", "g", "--in=a", "--in"], USAGE),
    (&["harts", "f", "", "--in=a"], USAGE),
    (&["harts", "f", "g", "--in=a", "--trace", "--trace"], USAGE),
    (&["harts", "f", "g", "--in=a", "--max=5"], USAGE),
    (&["harts", "f", "g", "--in=a", "--count"], USAGE),
    (&["harts", "f", "g", "--in=a", "--foreign=v1"], USAGE),
    (&["exec", "f", "--in=a", "--in=b"], USAGE),
    (&["mean", "f"], "Mean [\"f\"] [] 10000000 false false []"),
    (
        &["mean", "--max=5", "f", "--trace", "--in=g"],
        "Mean [\"f\"] [\"g\"] 5 true false []",
    ),
    (&["mean", "f", "--count"], USAGE),
    (&["mean", "f", "g"], USAGE),
    (&["mean"], USAGE),
    (&["meaning", "f"], USAGE),
    (&["gen", "1"], "Gen [\"1\"] [] 10000000 false false []"),
    (
        &["gen", "--max=5", "2000"],
        "Gen [\"2000\"] [] 5 false false []",
    ),
    (
        &["gen", "--", "7"],
        "Gen [\"7\"] [] 10000000 false false []",
    ),
    (&["gen"], USAGE),
    (&["gen", "1", "2"], USAGE),
    (&["gen", ""], USAGE),
    (&["gen", "0"], USAGE),
    (&["gen", "2001"], USAGE),
    (&["gen", "99999999999999999999999"], USAGE),
    (&["gen", "01"], USAGE),
    (&["gen", "+1"], USAGE),
    (&["gen", "--", "-1"], USAGE),
    (&["gen", " 1"], USAGE),
    (&["gen", "1x"], USAGE),
    (&["gen", "1", "--max=0"], USAGE),
    (&["gen", "1", "--trace"], USAGE),
    (&["gen", "1", "--count"], USAGE),
    (&["gen", "1", "--in=f"], USAGE),
    (&["gen", "1", "--foreign=v1"], USAGE),
    (&["--", "run", "f"], USAGE),
    (&["Run", "f"], USAGE),
];

// Words of `pack`, as above.
static PACKS: &[(&[&str], &str)] = &[
    (
        &["pack", "f", "g"],
        "Pack [\"f\", \"g\"] [] 10000000 false false []",
    ),
    (
        &["pack", "--", "-f", "-g"],
        "Pack [\"-f\", \"-g\"] [] 10000000 false false []",
    ),
    (&["pack"], USAGE),
    (&["pack", "f"], USAGE),
    (&["pack", "f", "g", "h"], USAGE),
    (&["pack", "f", ""], USAGE),
    (&["pack", "f", "-g"], USAGE),
    (&["pack", "f", "g", "--trace"], USAGE),
    (&["pack", "f", "g", "--max=1"], USAGE),
    (&["pack", "f", "g", "--std=11"], USAGE),
    (&["packs", "f", "g"], USAGE),
];

// Words behind the program's name, and the standard that they ask for.
static STANDARDS: &[(&[&str], Std)] = &[
    (&["run", "f"], Std::Cxx03),
    (&["run", "f", "--std=03"], Std::Cxx03),
    (&["run", "--std=11", "f"], Std::Cxx11),
    (&["mean", "f"], Std::Cxx03),
    (&["mean", "f", "--std", "11"], Std::Cxx11),
    (&["compile", "f", "g"], Std::Cxx03),
    (&["compile", "f", "g", "--std=11"], Std::Cxx11),
    (&["exec", "f"], Std::Cxx03),
];

#[test]
fn standards(rt: HostRuntime) -> Result<(), Fail> {
    for (words, want) in STANDARDS.iter() {
        let words = owned(rt.alloc(), *words)?;
        let read = read_words(rt.alloc(), &words)?;
        assert!(rt; read.std == *want, "{words:?}");
    }
    Ok(())
}

// The scripts of the modules that `mean` is given, in order.
#[test]
fn scripts_of_mean(rt: HostRuntime) -> Result<(), Fail> {
    let words = owned(
        rt.alloc(),
        &["mean", "f", "--foreign=r7,v1*2", "--foreign=v0"],
    )?;
    let found = scripts(rt.alloc(), &words)?;
    let shown = format!(in rt.alloc(); "{found:?}")?;
    assert_eq!(rt;
        shown.as_str(),
        "[[(Raise(7), 1), (Value(1), 2)], [(Value(0), 1)]]"
    );
    Ok(())
}

#[test]
fn present_verbs(rt: HostRuntime) -> Result<(), Fail> {
    for (words, want) in WORDS.iter() {
        let words = owned(rt.alloc(), *words)?;
        let read = shown(rt.alloc(), read_words(rt.alloc(), &words))?;
        assert_eq!(rt; read.as_str(), *want, "{words:?}");
        match scripts(rt.alloc(), &words) {
            Ok(scripts) => assert!(rt; scripts.is_empty() && *want != USAGE, "{words:?}"),
            Err(error) => assert!(rt; error == WordsError::Usage && *want == USAGE, "{words:?}"),
        }
    }
    Ok(())
}

#[test]
fn words_of_pack(rt: HostRuntime) -> Result<(), Fail> {
    for (words, want) in PACKS.iter() {
        let words = owned(rt.alloc(), *words)?;
        let read = shown(rt.alloc(), read_words(rt.alloc(), &words))?;
        assert_eq!(rt; read.as_str(), *want, "{words:?}");
    }
    Ok(())
}
