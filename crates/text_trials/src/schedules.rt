// Schedules that are read and that are refused, worked out by hand.
use hart_sched::{ScheduleError, read_schedule};
use std::alloc::{AllocError, Global};
use std::test::Fail;

// A text, how many harts there are, and the schedule.
static READ: &[(&str, u32, &[(u32, u32)])] = &[
    ("", 1, &[]),
    ("1 20000\n0 20000\n", 2, &[(1, 20000), (0, 20000)]),
    ("7 4294967295\n7 1\n", 8, &[(7, 4_294_967_295), (7, 1)]),
];

// A text, how many harts there are, the number of the refusal and its place.
static REFUSED: &[(&str, u32, u8, u32)] = &[
    ("0  5\n", 1, 80, 0),
    (" 0 5\n", 1, 80, 0),
    ("0 5 \n", 1, 80, 0),
    ("0 5\r\n", 1, 80, 0),
    ("0\t5\n", 1, 80, 0),
    ("0 5", 1, 80, 0),
    ("0 5\n\n", 1, 80, 4),
    ("0\n", 1, 80, 0),
    ("0 \n", 1, 80, 0),
    ("0 0\n", 1, 80, 0),
    ("0 05\n", 1, 80, 0),
    ("00 5\n", 1, 80, 0),
    ("-0 5\n", 1, 80, 0),
    ("0 +5\n", 1, 80, 0),
    ("0 4294967296\n", 1, 80, 0),
    ("0 1\n7 1\n0 x\n", 1, 80, 8),
    ("1 5\n", 1, 81, 0),
    ("0 1\n8 1\n", 8, 81, 4),
    ("0 1\n18446744073709551616 1\n", 8, 81, 4),
];

// What stands behind 256 slices of hart 0 with 4,294,967,295 turns each, which are 256 turns below the limit in 3,328 bytes, and
// what becomes of the text for one hart.
static BEHIND: &[(&str, Option<(u8, u32)>)] = &[
    ("0 256\n", None),
    ("0 257\n", Some((82, 3330))),
    ("0 256\n0 1\n", Some((82, 3336))),
    ("1 257\n", Some((81, 3328))),
];

fn long(alloc: Global, behind: &str) -> Result<Vec<u8>, AllocError> {
    let mut text = Vec::new(alloc);
    for _ in 0..256 {
        text.extend_from_slice(b"0 4294967295\n")?;
    }
    text.extend_from_slice(behind.as_bytes())?;
    Ok(text)
}

#[test]
fn schedules_that_are_read(rt: HostRuntime) -> Result<(), Fail> {
    for (text, harts, slices) in READ {
        let read = read_schedule(rt.alloc(), text.as_bytes(), *harts)?;
        assert_eq!(rt; read.as_slice(), *slices, "{text}");
    }
    Ok(())
}

#[test]
fn schedules_that_are_refused(rt: HostRuntime) -> Result<(), Fail> {
    for (text, harts, number, place) in REFUSED {
        let read = read_schedule(rt.alloc(), text.as_bytes(), *harts);
        assert_eq!(rt;
            read.err(),
            Some(ScheduleError::Refused(*number, *place)),
            "{text}"
        );
    }
    for (behind, refusal) in BEHIND {
        let text = long(rt.alloc(), behind)?;
        assert!(rt; text.len() <= 0x10_0000);
        let read = read_schedule(rt.alloc(), text.as_slice(), 1);
        let refused = refusal.map(|(number, place)| ScheduleError::Refused(number, place));
        assert_eq!(rt; read.err(), refused, "{behind}");
    }
    Ok(())
}
