// The calls one after the other, against counts and slots that were worked out by hand.
use caught_stack::{CaughtStack, Ended, Header, HeaderKind};
use std::test::Fail;

fn header(number: u64) -> Header {
    Header {
        number,
        kind: HeaderKind::Native(0x1_0000, 0),
        handlers: (0, 0),
        target: 0,
        lsda: 0,
    }
}

// A call, and what it answers; false where its condition does not hold, and it is not made.
#[derive(Clone, Copy)]
enum Call {
    Raise,
    Begin(u32),
    Rethrow,
    End,
    Free(u32),
}

#[derive(Clone, Copy, PartialEq, Eq)]
enum Answer {
    Made(bool),
    Rethrown(Option<u32>),
    Ended(Option<Ended>),
}

fn raise(stack: &mut CaughtStack) -> bool {
    if stack.uncaught() >= 2048 {
        return false;
    }
    stack.raised();
    true
}

fn begin(stack: &mut CaughtStack, slot: u32) -> bool {
    let count = stack.count(slot);
    let is_top = stack.top().map_or(false, |top| top == slot);
    let is_small = count > -1000 && count < 1000;
    if stack.header(slot).is_none()
        || stack.uncaught() == 0
        || !is_small
        || !(is_top || count == 0)
    {
        return false;
    }
    stack.begin(slot);
    true
}

fn free(stack: &mut CaughtStack, slot: u32) -> bool {
    if stack.header(slot).is_none() || stack.count(slot) != 0 {
        return false;
    }
    stack.free(slot);
    true
}

fn answer_of(stack: &mut CaughtStack, call: Call) -> Answer {
    match call {
        Call::Raise => Answer::Made(raise(stack)),
        Call::Begin(slot) => Answer::Made(begin(stack, slot)),
        Call::Rethrow => Answer::Rethrown(stack.rethrow()),
        Call::End => Answer::Ended(stack.end()),
        Call::Free(slot) => Answer::Made(free(stack, slot)),
    }
}

// The first row whose answer, or the count on top or the number uncaught after it, is another.
fn first_wrong(stack: &mut CaughtStack, rows: &[(Call, Answer, i64, u32)]) -> Option<usize> {
    for (i, (call, want, count, uncaught)) in rows.iter().enumerate() {
        let got = answer_of(stack, *call);
        let top_count = match stack.top() {
            Some(top) => stack.count(top),
            None => 0,
        };
        if got != *want || top_count != *count || stack.uncaught() != *uncaught {
            return Some(i);
        }
    }
    None
}

#[test]
fn counts_of_one_exception(rt: HostRuntime) -> Result<(), Fail> {
    let mut stack = CaughtStack::new(rt.alloc())?;
    let made = stack.allocate(header(1));
    assert!(rt; made.is_some());
    let one = made.unwrap_or(0);
    let rows = [
        (Call::Begin(one), Answer::Made(false), 0, 0),
        (Call::Raise, Answer::Made(true), 0, 1),
        (Call::Begin(one), Answer::Made(true), 1, 0),
        (Call::Rethrow, Answer::Rethrown(Some(one)), -1, 1),
        (Call::Begin(one), Answer::Made(true), 2, 0),
        (Call::End, Answer::Ended(Some(Ended::Active(one))), 1, 0),
        (Call::End, Answer::Ended(Some(Ended::Last(one))), 0, 0),
        (Call::End, Answer::Ended(None), 0, 0),
        (Call::Rethrow, Answer::Rethrown(None), 0, 0),
        (Call::Raise, Answer::Made(true), 0, 1),
        (Call::Begin(one), Answer::Made(true), 1, 0),
        (Call::Raise, Answer::Made(true), 1, 1),
        (Call::Begin(one), Answer::Made(true), 2, 0),
        (Call::Rethrow, Answer::Rethrown(Some(one)), -2, 1),
        (Call::Rethrow, Answer::Rethrown(None), -2, 1),
        (
            Call::End,
            Answer::Ended(Some(Ended::Travelling(one))),
            -1,
            1,
        ),
        (Call::Free(one), Answer::Made(false), -1, 1),
        (Call::End, Answer::Ended(Some(Ended::Travelling(one))), 0, 1),
        (Call::Free(one), Answer::Made(true), 0, 1),
        (Call::Free(one), Answer::Made(false), 0, 1),
    ];
    assert_eq!(rt; first_wrong(&mut stack, &rows), None);
    Ok(())
}

#[test]
fn rethrows_three_deep(rt: HostRuntime) -> Result<(), Fail> {
    let mut stack = CaughtStack::new(rt.alloc())?;
    let one = stack.allocate(header(1)).unwrap_or(2000);
    let two = stack.allocate(header(2)).unwrap_or(2000);
    let three = stack.allocate(header(3)).unwrap_or(2000);
    let rows = [
        (Call::Raise, Answer::Made(true), 0, 1),
        (Call::Begin(one), Answer::Made(true), 1, 0),
        (Call::Raise, Answer::Made(true), 1, 1),
        (Call::Begin(two), Answer::Made(true), 1, 0),
        (Call::Raise, Answer::Made(true), 1, 1),
        (Call::Begin(three), Answer::Made(true), 1, 0),
        (Call::Rethrow, Answer::Rethrown(Some(three)), -1, 1),
        (
            Call::End,
            Answer::Ended(Some(Ended::Travelling(three))),
            1,
            1,
        ),
        (Call::Rethrow, Answer::Rethrown(Some(two)), -1, 2),
        (Call::End, Answer::Ended(Some(Ended::Travelling(two))), 1, 2),
        (Call::Rethrow, Answer::Rethrown(Some(one)), -1, 3),
        (Call::Begin(one), Answer::Made(true), 2, 2),
        (Call::Begin(three), Answer::Made(true), 1, 1),
        (Call::Begin(one), Answer::Made(false), 1, 1),
        (Call::Begin(two), Answer::Made(true), 1, 0),
        (Call::End, Answer::Ended(Some(Ended::Last(two))), 1, 0),
        (Call::End, Answer::Ended(Some(Ended::Last(three))), 2, 0),
        (Call::End, Answer::Ended(Some(Ended::Active(one))), 1, 0),
        (Call::End, Answer::Ended(Some(Ended::Last(one))), 0, 0),
    ];
    assert_eq!(rt; first_wrong(&mut stack, &rows), None);
    Ok(())
}

#[test]
fn every_slot_and_no_more(rt: HostRuntime) -> Result<(), Fail> {
    let mut stack = CaughtStack::new(rt.alloc())?;
    // the slots are freed in order, from the last, and in two orders between
    for (step, from) in [(1, 0), (1023, 1023), (5, 7), (511, 300)] {
        for number in 0..1024 {
            let slot = stack.allocate(header(number)).unwrap_or(2000);
            assert_eq!(rt; stack.header(slot), Some(header(number)));
        }
        assert_eq!(rt; stack.allocate(header(1024)), None);
        for i in 0..1024u32 {
            let slot = i.wrapping_mul(step).wrapping_add(from) % 1024;
            assert!(rt; stack.header(slot).is_some());
            stack.set_header(slot, header(7));
            assert!(rt; free(&mut stack, slot));
            assert_eq!(rt; stack.header(slot), None);
            // one more is vacant, which is given and given back
            let again = stack.allocate(header(2000)).unwrap_or(2000);
            assert!(rt; free(&mut stack, again));
        }
    }
    Ok(())
}
