// Walks that break.
use crate::faults::Row;
use crate::image::{CATCHES_INT, CLEANUP, Function, INT};
use crate::op::Op;

static WALKS: &[Row] = &[
    Row {
        name: "a frame whose canonical frame address leaves the stack",
        functions: &[
            Function {
                ops: &[Op::Enter, Op::Call(1)],
                sites: &[(1, 0, None)],
            },
            Function {
                ops: &[Op::Enter, Op::Make(1, INT), Op::Spoil(0), Op::Runtime(5)],
                sites: &[(3, 0, None)],
            },
        ],
        at: 0x464,
        lines: "! make 1\n",
    },
    Row {
        name: "a return address that lies below the stack",
        functions: &[
            Function {
                ops: &[Op::Enter, Op::Call(1)],
                sites: &[(1, 0, None)],
            },
            Function {
                ops: &[
                    Op::Enter,
                    Op::Make(1, INT),
                    Op::Spoil(0x7_0000),
                    Op::Runtime(5),
                ],
                sites: &[(3, 0, None)],
            },
        ],
        at: 0x464,
        lines: "! make 1\n",
    },
    Row {
        name: "two frames with one canonical frame address",
        functions: &[
            Function {
                ops: &[Op::Call(1)],
                sites: &[(0, 0, None)],
            },
            Function {
                ops: &[Op::Enter, Op::Make(1, INT), Op::Runtime(5)],
                sites: &[(2, 0, None)],
            },
        ],
        at: 0x444,
        lines: "! make 1\n",
    },
    Row {
        name: "a forced unwind out of a frame that leaves the stack",
        functions: &[
            Function {
                ops: &[Op::Enter, Op::Call(1)],
                sites: &[(1, 0, None)],
            },
            Function {
                ops: &[Op::Enter, Op::Spoil(0), Op::With(15, 4)],
                sites: &[(2, 0, None)],
            },
        ],
        at: 0x448,
        lines: "",
    },
    Row {
        name: "a cleanup goes on from a frame that leaves the stack",
        functions: &[
            Function {
                ops: &[Op::Enter, Op::Call(1)],
                sites: &[(1, 1, CATCHES_INT)],
            },
            Function {
                ops: &[
                    Op::Enter,
                    Op::Make(1, INT),
                    Op::Runtime(5),
                    Op::Spoil(0),
                    Op::Runtime(9),
                ],
                sites: &[(2, 3, CLEANUP), (4, 0, None)],
            },
        ],
        at: 0x484,
        lines: "! make 1\n",
    },
    Row {
        name: "a target that has no handler there",
        functions: &[Function {
            ops: &[Op::Enter, Op::Make(1, INT), Op::Runtime(5), Op::Runtime(9)],
            sites: &[(2, 3, CATCHES_INT), (3, 0, CLEANUP)],
        }],
        at: 0x64,
        lines: "! make 1\n",
    },
    Row {
        name: "a target that has returned",
        functions: &[
            Function {
                ops: &[Op::Enter, Op::Call(1), Op::Runtime(9)],
                sites: &[(1, 0, None), (2, 0, None)],
            },
            Function {
                ops: &[Op::Enter, Op::Make(1, INT), Op::Runtime(5), Op::Return],
                sites: &[(2, 3, CATCHES_INT)],
            },
        ],
        at: 0x44,
        lines: "! make 1\n",
    },
];

/// Walks out of a frame that can't be left, and to a target that is not there.
pub fn rows() -> &'static [Row] {
    WALKS
}
