// The printed lines of each kind of item and of each end, written by hand.
use cxa_runtime::End;
use eh_outer::MemSink;
use run_ends::end_text;
use run_items::{Item, put_item};
use rv64_isa::FaultKind;
use std::test::Fail;

#[test]
fn of_each_item(rt: HostRuntime) -> Result<(), Fail> {
    let alloc = rt.alloc();
    let rows: [(Item, &str, &str); 9] = [
        (Item::Line(-2147483648), "-2147483648\n", "-2147483648\n"),
        (Item::Line(7), "7\n", "7\n"),
        (Item::Make(1), "! make 1\n", ""),
        (
            Item::Foreign(u64::MAX, u32::MAX, u32::MAX),
            "! foreign 18446744073709551615 4294967295 4294967295\n",
            "",
        ),
        (Item::Enter(12), "! enter 12\n", ""),
        (Item::Leave(2), "! leave 2\n", ""),
        (Item::Destroy(3), "! destroy 3\n", ""),
        (Item::Free(4), "! free 4\n", ""),
        (Item::Clean(0, 7), "! clean 0 7\n", ""),
    ];
    for (item, traced, plain) in rows {
        for (trace, expected) in [(true, traced), (false, plain)] {
            let mut out = MemSink::new(alloc, 64, Vec::new(alloc))?;
            assert!(rt; put_item(&mut out, trace, item).is_ok());
            assert_eq!(rt; out.bytes(), expected.as_bytes());
        }
    }
    Ok(())
}

static ENDS: &[(End, &str)] = &[
    (End::Exit(0), "= exit 0\n"),
    (End::Exit(i32::MIN), "= exit -2147483648\n"),
    (End::Aborted, "= aborted\n"),
    (End::Budget, "= budget\n"),
    (End::Stack, "= stack\n"),
    (
        End::Fault(FaultKind::Unmapped, 0),
        "= fault unmapped 0x0000000000000000\n",
    ),
    (
        End::Fault(FaultKind::Misaligned, u64::MAX),
        "= fault misaligned 0xffffffffffffffff\n",
    ),
    (
        End::Fault(FaultKind::Walk, 0x1_0abc),
        "= fault walk 0x0000000000010abc\n",
    ),
    (End::WriteFault, ""),
];

#[test]
fn of_each_end(rt: HostRuntime) -> Result<(), Fail> {
    for (end, line) in ENDS {
        assert_eq!(rt; end_text(*end).as_slice(), line.as_bytes());
    }
    Ok(())
}
