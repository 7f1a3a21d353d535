// Exceptions that come to a specification.
use crate::image::{CATCHES_ALL, Code, DERIVED, Function, INT, OTHER, PRINTS, SPECIFIED};
use crate::op::{LIST, Op};
use crate::trials::Trial;
use cxa_runtime::End;

static SPECIFICATIONS: &[Trial] = &[
    Trial {
        name: "the list allows the second exception, by a base",
        code: Code {
            functions: &[Function {
                ops: &[
                    Op::Enter,
                    Op::With(12, 5),
                    Op::Make(1, OTHER),
                    Op::Runtime(5),
                    Op::Runtime(18),
                    Op::KeepTable,
                    Op::Runtime(1),
                    Op::Make(2, DERIVED),
                    Op::Runtime(5),
                    Op::Check(LIST),
                    Op::With(0, 0),
                ],
                sites: &[(3, 4, SPECIFIED), (8, 9, CATCHES_ALL)],
            }],
            stub: PRINTS,
            list: &[1],
        },
        lines: "! make 1\n! enter 1\n5\n! make 2\n0\n",
        end: End::Exit(0),
    },
    Trial {
        name: "the list has bad_exception",
        code: Code {
            functions: &[Function {
                ops: &[
                    Op::Enter,
                    Op::Make(1, OTHER),
                    Op::Runtime(5),
                    Op::Runtime(18),
                    Op::KeepTable,
                    Op::Runtime(1),
                    Op::Make(2, OTHER),
                    Op::Runtime(5),
                    Op::Check(LIST),
                    Op::With(0, 0),
                ],
                sites: &[(2, 3, SPECIFIED), (7, 8, CATCHES_ALL)],
            }],
            stub: PRINTS,
            list: &[1, 3],
        },
        lines: "! make 1\n! enter 1\n0\n! make 2\n1\n",
        end: End::Exit(0),
    },
    Trial {
        name: "the list is empty",
        code: Code {
            functions: &[Function {
                ops: &[
                    Op::Enter,
                    Op::Make(1, OTHER),
                    Op::Runtime(5),
                    Op::Runtime(18),
                    Op::KeepTable,
                    Op::Make(2, INT),
                    Op::Runtime(5),
                    Op::Check(LIST),
                    Op::With(0, 0),
                ],
                sites: &[(2, 3, SPECIFIED), (6, 7, CATCHES_ALL)],
            }],
            stub: PRINTS,
            list: &[],
        },
        lines: "! make 1\n! enter 1\n! make 2\n2\n",
        end: End::Exit(0),
    },
    Trial {
        name: "a foreign exception comes to a specification",
        code: Code {
            functions: &[Function {
                ops: &[Op::Enter, Op::With(14, 0)],
                sites: &[(1, 1, SPECIFIED)],
            }],
            stub: PRINTS,
            list: &[1],
        },
        lines: "! foreign 1 0 7\n0\n",
        end: End::Aborted,
    },
];

/// Exceptions that come to a specification, and what its list says of a second.
pub fn rows() -> &'static [Trial] {
    SPECIFICATIONS
}
