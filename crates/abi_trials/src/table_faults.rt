// Other calls that can't be done.
use crate::faults::Row;
use crate::image::{
    BROKEN, CATCHES_ALL, CATCHES_INT, ENDLESS, Function, INT, OTHER, SPECIFIED, Site,
};
use crate::op::{LIST, Op};

const CAUGHT: &[Site] = &[(2, 3, CATCHES_INT)];

static TABLES: &[Row] = &[
    Row {
        name: "a number of no call",
        functions: &[Function {
            ops: &[Op::Enter, Op::Runtime(21)],
            sites: &[],
        }],
        at: 0x24,
        lines: "",
    },
    Row {
        name: "a forced unwind goes on where none is on",
        functions: &[Function {
            ops: &[Op::Enter, Op::With(9, 0)],
            sites: &[],
        }],
        at: 0x28,
        lines: "",
    },
    Row {
        name: "a type record that is not aligned",
        functions: &[Function {
            ops: &[Op::Enter, Op::Make(1, INT + 4), Op::Runtime(5)],
            sites: &[(2, 3, CATCHES_INT)],
        }],
        at: 0x44,
        lines: "! make 1\n",
    },
    Row {
        name: "a type that is a base of its own",
        functions: &[Function {
            ops: &[Op::Enter, Op::Make(1, ENDLESS), Op::Runtime(5)],
            sites: CAUGHT,
        }],
        at: 0x44,
        lines: "! make 1\n",
    },
    Row {
        name: "a type whose base lies outside the memory",
        functions: &[Function {
            ops: &[Op::Enter, Op::Make(1, BROKEN), Op::Runtime(5)],
            sites: CAUGHT,
        }],
        at: 0x44,
        lines: "! make 1\n",
    },
    Row {
        name: "a table that no function names",
        functions: &[Function {
            ops: &[Op::Enter, Op::Make(1, INT), Op::Runtime(5), Op::Check(LIST)],
            sites: CAUGHT,
        }],
        at: 0x70,
        lines: "! make 1\n",
    },
    Row {
        name: "a list that no chain of the table has",
        functions: &[Function {
            ops: &[
                Op::Enter,
                Op::Make(1, INT),
                Op::Runtime(5),
                Op::Keep,
                Op::Runtime(18),
                Op::KeepTable,
                Op::Back,
                Op::Check(LIST),
            ],
            sites: CAUGHT,
        }],
        at: 0xf0,
        lines: "! make 1\n! enter 1\n",
    },
    Row {
        name: "a selector of a handler",
        functions: &[Function {
            ops: &[
                Op::Enter,
                Op::Make(1, OTHER),
                Op::Runtime(5),
                Op::Runtime(18),
                Op::KeepTable,
                Op::Make(2, INT),
                Op::Runtime(5),
                Op::Check(1),
            ],
            sites: &[(2, 3, SPECIFIED), (6, 7, CATCHES_INT)],
        }],
        at: 0xf0,
        lines: "! make 1\n! enter 1\n! make 2\n",
    },
    Row {
        name: "a list and a foreign exception",
        functions: &[Function {
            ops: &[
                Op::Enter,
                Op::Make(1, OTHER),
                Op::Runtime(5),
                Op::Runtime(18),
                Op::KeepTable,
                Op::With(14, 0),
                Op::Check(LIST),
            ],
            sites: &[(2, 3, SPECIFIED), (5, 6, CATCHES_ALL)],
        }],
        at: 0xd0,
        lines: "! make 1\n! enter 1\n! foreign 2 0 7\n",
    },
];

/// Calls of no number, of no forced unwind, of a type record that can't be read, and of no list.
pub fn rows() -> &'static [Row] {
    TABLES
}
