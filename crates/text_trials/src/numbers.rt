// Numbers and lines, written by hand.
use plain_text::{int_of, line_length, number_of};
use std::test::Fail;

const GREATEST: u64 = u64::MAX;

// A bound, a text, and the number that it writes.
static NUMBERS: &[(u64, &str, Option<u64>)] = &[
    (GREATEST, "0", Some(0)),
    (GREATEST, "7", Some(7)),
    (GREATEST, "18446744073709551615", Some(GREATEST)),
    (GREATEST, "18446744073709551616", None),
    (7, "7", Some(7)),
    (7, "8", None),
    (7, "", None),
    (7, "07", None),
    (7, "00", None),
    (7, "-0", None),
    (7, "+1", None),
    (7, " 1", None),
    (7, "1 ", None),
];

// A text, and the int that it writes.
static INTS: &[(&str, Option<i32>)] = &[
    ("0", Some(0)),
    ("2147483647", Some(i32::MAX)),
    ("2147483648", None),
    ("-2147483648", Some(i32::MIN)),
    ("-2147483649", None),
    ("-0", None),
    ("-", None),
    ("--1", None),
    ("-01", None),
    ("", None),
];

// A text, and how long its first line is.
static LINES: &[(&str, usize)] = &[("a", 1), ("\n", 1), ("ab\nc\n", 3), ("\n\n", 1)];

#[test]
fn numbers_and_lines(rt: HostRuntime) -> Result<(), Fail> {
    for (most, text, number) in NUMBERS {
        assert_eq!(rt; number_of(*most, text.as_bytes()), *number, "{text}");
    }
    for (text, int) in INTS {
        assert_eq!(rt; int_of(text.as_bytes()), *int, "{text}");
    }
    for (text, length) in LINES {
        assert_eq!(rt; line_length(text.as_bytes()), *length, "{text}");
    }
    Ok(())
}
