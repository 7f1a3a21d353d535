// Calls of an object where none lives.
use crate::faults::Row;
use crate::image::Function;
use crate::op::Op;

static CALLS: &[Row] = &[
    Row {
        name: "what is no object is given back",
        functions: &[Function {
            ops: &[Op::Enter, Op::With(4, 0)],
            sites: &[],
        }],
        at: 0x28,
        lines: "",
    },
    Row {
        name: "a throw of what is no object",
        functions: &[Function {
            ops: &[Op::Enter, Op::With(5, 0)],
            sites: &[],
        }],
        at: 0x28,
        lines: "",
    },
    Row {
        name: "a handler enters what is no object",
        functions: &[Function {
            ops: &[Op::Enter, Op::With(6, 0)],
            sites: &[],
        }],
        at: 0x28,
        lines: "",
    },
    Row {
        name: "the end of a handler where nothing was made",
        functions: &[Function {
            ops: &[Op::Enter, Op::With(7, 0)],
            sites: &[],
        }],
        at: 0x28,
        lines: "",
    },
    Row {
        name: "a specification enters what is no object",
        functions: &[Function {
            ops: &[Op::Enter, Op::With(18, 0)],
            sites: &[],
        }],
        at: 0x28,
        lines: "",
    },
    Row {
        name: "the list of what is no table",
        functions: &[Function {
            ops: &[Op::Enter, Op::With(19, 0)],
            sites: &[],
        }],
        at: 0x28,
        lines: "",
    },
    Row {
        name: "terminate for what is no object",
        functions: &[Function {
            ops: &[Op::Enter, Op::With(20, 0)],
            sites: &[],
        }],
        at: 0x28,
        lines: "",
    },
];

/// Calls that want an object, in a run that made none.
pub fn rows() -> &'static [Row] {
    CALLS
}
