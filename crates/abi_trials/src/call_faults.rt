// Calls of an object in another state.
use crate::faults::Row;
use crate::image::{CATCHES_ALL, CATCHES_INT, Function, INT, Site};
use crate::op::Op;

const CAUGHT: &[Site] = &[(2, 3, CATCHES_INT)];

const RAISED: &[Site] = &[(1, 2, CATCHES_ALL)];

static CALLS: &[Row] = &[
    Row {
        name: "throw of what was thrown",
        functions: &[Function {
            ops: &[Op::Enter, Op::Make(1, INT), Op::Runtime(5), Op::Runtime(5)],
            sites: CAUGHT,
        }],
        at: 0x64,
        lines: "! make 1\n",
    },
    Row {
        name: "an object that was thrown is given back",
        functions: &[Function {
            ops: &[Op::Enter, Op::Make(1, INT), Op::Runtime(5), Op::Runtime(4)],
            sites: CAUGHT,
        }],
        at: 0x64,
        lines: "! make 1\n",
    },
    Row {
        name: "a foreign exception is given back",
        functions: &[Function {
            ops: &[Op::Enter, Op::With(14, 0), Op::Runtime(4)],
            sites: RAISED,
        }],
        at: 0x44,
        lines: "! foreign 1 0 7\n",
    },
    Row {
        name: "a handler enters what is building",
        functions: &[Function {
            ops: &[Op::Enter, Op::Make(1, INT), Op::Runtime(6)],
            sites: &[],
        }],
        at: 0x44,
        lines: "! make 1\n",
    },
    Row {
        name: "a handler enters what is not uncaught",
        functions: &[Function {
            ops: &[
                Op::Enter,
                Op::Make(1, INT),
                Op::Runtime(5),
                Op::Runtime(6),
                Op::Runtime(6),
            ],
            sites: CAUGHT,
        }],
        at: 0x84,
        lines: "! make 1\n! enter 1\n",
    },
    Row {
        name: "an object is given back twice",
        functions: &[Function {
            ops: &[
                Op::Enter,
                Op::Make(1, INT),
                Op::Keep,
                Op::Runtime(4),
                Op::Back,
                Op::Runtime(4),
            ],
            sites: &[],
        }],
        at: 0xa4,
        lines: "! make 1\n! free 1\n",
    },
    Row {
        name: "phase two of what is building",
        functions: &[Function {
            ops: &[Op::Enter, Op::Make(1, INT), Op::Runtime(9)],
            sites: &[],
        }],
        at: 0x44,
        lines: "! make 1\n",
    },
    Row {
        name: "the end of a handler where none is entered",
        functions: &[Function {
            ops: &[Op::Enter, Op::Make(1, INT), Op::Runtime(5), Op::Runtime(7)],
            sites: CAUGHT,
        }],
        at: 0x64,
        lines: "! make 1\n",
    },
    Row {
        name: "a handler enters what lies beneath another",
        functions: &[Function {
            ops: &[
                Op::Enter,
                Op::Make(1, INT),
                Op::Keep,
                Op::Runtime(5),
                Op::Runtime(6),
                Op::Make(2, INT),
                Op::Runtime(5),
                Op::Runtime(6),
                Op::Make(3, INT),
                Op::Runtime(5),
                Op::Back,
                Op::Runtime(6),
            ],
            sites: &[
                (3, 4, CATCHES_INT),
                (6, 7, CATCHES_INT),
                (9, 10, CATCHES_INT),
            ],
        }],
        at: 0x164,
        lines: "! make 1\n! enter 1\n! make 2\n! enter 2\n! make 3\n",
    },
    Row {
        name: "a specification enters what is building",
        functions: &[Function {
            ops: &[Op::Enter, Op::Make(1, INT), Op::Runtime(18)],
            sites: &[],
        }],
        at: 0x44,
        lines: "! make 1\n",
    },
    Row {
        name: "a specification enters what is not uncaught",
        functions: &[Function {
            ops: &[
                Op::Enter,
                Op::Make(1, INT),
                Op::Runtime(5),
                Op::Runtime(6),
                Op::Runtime(18),
            ],
            sites: CAUGHT,
        }],
        at: 0x84,
        lines: "! make 1\n! enter 1\n",
    },
    Row {
        name: "a specification enters a foreign exception",
        functions: &[Function {
            ops: &[Op::Enter, Op::With(14, 0), Op::Runtime(18)],
            sites: RAISED,
        }],
        at: 0x44,
        lines: "! foreign 1 0 7\n",
    },
    Row {
        name: "terminate for what is building",
        functions: &[Function {
            ops: &[Op::Enter, Op::Make(1, INT), Op::Runtime(20)],
            sites: &[],
        }],
        at: 0x44,
        lines: "! make 1\n",
    },
    Row {
        name: "terminate for a foreign exception",
        functions: &[Function {
            ops: &[Op::Enter, Op::With(14, 0), Op::Runtime(20)],
            sites: RAISED,
        }],
        at: 0x44,
        lines: "! foreign 1 0 7\n",
    },
];

/// Calls of an object that is not in the state that they name.
pub fn rows() -> &'static [Row] {
    CALLS
}
