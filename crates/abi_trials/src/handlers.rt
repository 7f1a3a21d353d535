// Handlers in one function.
use crate::image::{CATCHES_ALL, CATCHES_INT, Code, DERIVED, Function, INT, OTHER, PRINTS};
use crate::op::Op;
use crate::trials::Trial;
use cxa_runtime::End;

static HANDLERS: &[Trial] = &[
    Trial {
        name: "a handler throws again, in a try of its own",
        code: Code {
            functions: &[Function {
                ops: &[
                    Op::Enter,
                    Op::Make(4, INT),
                    Op::Runtime(5),
                    Op::Runtime(6),
                    Op::Runtime(8),
                    Op::Runtime(6),
                    Op::Runtime(7),
                    Op::With(1, 1),
                    Op::Leave,
                    Op::With(0, 0),
                ],
                sites: &[(2, 3, CATCHES_INT), (4, 5, CATCHES_INT)],
            }],
            stub: PRINTS,
            list: &[],
        },
        lines: "! make 1\n! enter 1\n! enter 1\n! leave 1\n1\n! leave 1\n! destroy 1\n! free 1\n",
        end: End::Exit(0),
    },
    Trial {
        name: "a handler throws another exception, which leaves it",
        code: Code {
            functions: &[Function {
                ops: &[
                    Op::Enter,
                    Op::Make(1, DERIVED),
                    Op::Runtime(5),
                    Op::Runtime(6),
                    Op::Make(2, INT),
                    Op::Runtime(5),
                    Op::Keep,
                    Op::Leave,
                    Op::Back,
                    Op::Runtime(6),
                    Op::Show,
                    Op::Leave,
                    Op::With(0, 0),
                ],
                sites: &[(2, 3, CATCHES_INT), (5, 6, CATCHES_INT)],
            }],
            stub: PRINTS,
            list: &[],
        },
        lines: "! make 1\n! enter 1\n! make 2\n! leave 1\n! destroy 1\n! free 1\n! enter 2\n2\n! leave 2\n! destroy 2\n! free 2\n",
        end: End::Exit(0),
    },
    Trial {
        name: "what is called returns, and its caller catches",
        code: Code {
            functions: &[
                Function {
                    ops: &[
                        Op::Enter,
                        Op::Call(1),
                        Op::Make(3, OTHER),
                        Op::Runtime(5),
                        Op::With(0, 3),
                    ],
                    sites: &[(1, 0, None), (3, 4, CATCHES_ALL)],
                },
                Function {
                    ops: &[Op::Enter, Op::With(10, 1), Op::Runtime(1), Op::Return],
                    sites: &[],
                },
            ],
            stub: PRINTS,
            list: &[],
        },
        lines: "0\n! make 1\n",
        end: End::Exit(3),
    },
    Trial {
        name: "a foreign exception is thrown again, and cleaned up by its module",
        code: Code {
            functions: &[Function {
                ops: &[
                    Op::Enter,
                    Op::With(14, 0),
                    Op::Runtime(6),
                    Op::With(1, 2),
                    Op::Runtime(8),
                    Op::Keep,
                    Op::Runtime(7),
                    Op::Back,
                    Op::Runtime(6),
                    Op::With(1, 3),
                    Op::Runtime(7),
                    Op::With(0, 0),
                ],
                sites: &[(1, 2, CATCHES_ALL), (4, 5, CATCHES_ALL)],
            }],
            stub: PRINTS,
            list: &[],
        },
        lines: "! foreign 1 0 7\n! enter 1\n2\n! leave 1\n! enter 1\n3\n! leave 1\n! clean 0 7\n",
        end: End::Exit(0),
    },
    Trial {
        name: "a handler within a handler, which throws its own exception again",
        code: Code {
            functions: &[Function {
                ops: &[
                    Op::Enter,
                    Op::Make(1, INT),
                    Op::Runtime(5),
                    Op::Runtime(6),
                    Op::Make(2, OTHER),
                    Op::Runtime(5),
                    Op::Runtime(6),
                    Op::Show,
                    Op::Leave,
                    Op::Runtime(8),
                    Op::Runtime(6),
                    Op::Show,
                    Op::Runtime(7),
                    Op::Leave,
                    Op::With(0, 0),
                ],
                sites: &[
                    (2, 3, CATCHES_INT),
                    (5, 6, CATCHES_ALL),
                    (9, 10, CATCHES_INT),
                ],
            }],
            stub: PRINTS,
            list: &[],
        },
        lines: "! make 1\n! enter 1\n! make 2\n! enter 2\n2\n! leave 2\n! destroy 2\n! free 2\n! enter 1\n1\n! leave 1\n! leave 1\n! destroy 1\n! free 1\n",
        end: End::Exit(0),
    },
];

/// Handlers that throw, alone and within another, and one of a foreign exception.
pub fn rows() -> &'static [Trial] {
    HANDLERS
}
