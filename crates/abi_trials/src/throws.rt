// Exceptions that leave functions.
use crate::image::{
    CATCHES_ALL, CATCHES_INT, CLEANUP, Code, DERIVED, Function, INT, OTHER, PRINTS,
};
use crate::op::Op;
use crate::trials::Trial;
use cxa_runtime::End;

static THROWS: &[Trial] = &[
    Trial {
        name: "a throw across three frames, with a cleanup in two",
        code: Code {
            functions: &[
                Function {
                    ops: &[
                        Op::Enter,
                        Op::Call(1),
                        Op::Runtime(6),
                        Op::Show,
                        Op::Leave,
                        Op::With(0, 0),
                    ],
                    sites: &[(1, 2, CATCHES_INT)],
                },
                Function {
                    ops: &[
                        Op::Enter,
                        Op::Call(2),
                        Op::Keep,
                        Op::With(10, 9),
                        Op::Runtime(1),
                        Op::Back,
                        Op::Runtime(9),
                    ],
                    sites: &[(1, 2, CLEANUP), (6, 0, None)],
                },
                Function {
                    ops: &[
                        Op::Enter,
                        Op::Make(5, INT),
                        Op::Runtime(5),
                        Op::Keep,
                        Op::With(1, 2),
                        Op::Back,
                        Op::Runtime(9),
                    ],
                    sites: &[(2, 3, None), (6, 0, None)],
                },
            ],
            stub: PRINTS,
            list: &[],
        },
        lines: "! make 1\n2\n1\n! enter 1\n5\n! leave 1\n! destroy 1\n! free 1\n",
        end: End::Exit(0),
    },
    Trial {
        name: "a handler throws again, and a cleanup leaves it for that of the caller",
        code: Code {
            functions: &[
                Function {
                    ops: &[
                        Op::Enter,
                        Op::Call(1),
                        Op::Runtime(6),
                        Op::Show,
                        Op::Leave,
                        Op::With(0, 0),
                    ],
                    sites: &[(1, 2, CATCHES_ALL)],
                },
                Function {
                    ops: &[
                        Op::Enter,
                        Op::Make(6, INT),
                        Op::Runtime(5),
                        Op::Runtime(6),
                        Op::Runtime(8),
                        Op::Keep,
                        Op::Runtime(7),
                        Op::Back,
                        Op::Runtime(9),
                    ],
                    sites: &[(2, 3, CATCHES_INT), (4, 5, CLEANUP), (8, 0, None)],
                },
            ],
            stub: PRINTS,
            list: &[],
        },
        lines: "! make 1\n! enter 1\n! leave 1\n! enter 1\n6\n! leave 1\n! destroy 1\n! free 1\n",
        end: End::Exit(0),
    },
    Trial {
        name: "a foreign exception passes by a handler of int, behind a cleanup",
        code: Code {
            functions: &[
                Function {
                    ops: &[
                        Op::Enter,
                        Op::Call(1),
                        Op::Runtime(6),
                        Op::Runtime(7),
                        Op::With(0, 0),
                    ],
                    sites: &[(1, 2, CATCHES_ALL)],
                },
                Function {
                    ops: &[Op::Enter, Op::Call(2), Op::With(1, 9)],
                    sites: &[(1, 2, CATCHES_INT)],
                },
                Function {
                    ops: &[
                        Op::Enter,
                        Op::With(14, 0),
                        Op::Keep,
                        Op::With(1, 2),
                        Op::Back,
                        Op::Runtime(9),
                    ],
                    sites: &[(1, 2, CLEANUP), (5, 0, None)],
                },
            ],
            stub: PRINTS,
            list: &[],
        },
        lines: "! foreign 1 0 7\n2\n! enter 1\n! leave 1\n! clean 0 7\n",
        end: End::Exit(0),
    },
    Trial {
        name: "a throw comes to a barrier, and no cleanup is entered",
        code: Code {
            functions: &[
                Function {
                    ops: &[Op::Enter, Op::Call(1)],
                    sites: &[],
                },
                Function {
                    ops: &[
                        Op::Enter,
                        Op::Make(1, INT),
                        Op::Runtime(5),
                        Op::With(1, 2),
                        Op::Runtime(9),
                    ],
                    sites: &[(2, 3, CLEANUP), (4, 0, None)],
                },
            ],
            stub: PRINTS,
            list: &[],
        },
        lines: "! make 1\n! enter 1\n0\n",
        end: End::Aborted,
    },
    Trial {
        name: "a handler of the base catches",
        code: Code {
            functions: &[Function {
                ops: &[
                    Op::Enter,
                    Op::Make(1, DERIVED),
                    Op::Runtime(5),
                    Op::Runtime(6),
                    Op::Show,
                    Op::Leave,
                    Op::With(0, 0),
                ],
                sites: &[(2, 3, CATCHES_INT)],
            }],
            stub: PRINTS,
            list: &[],
        },
        lines: "! make 1\n! enter 1\n1\n! leave 1\n! destroy 1\n! free 1\n",
        end: End::Exit(0),
    },
    Trial {
        name: "a type that no handler takes",
        code: Code {
            functions: &[Function {
                ops: &[
                    Op::Enter,
                    Op::Make(1, OTHER),
                    Op::Runtime(5),
                    Op::Runtime(16),
                ],
                sites: &[(2, 3, CATCHES_INT)],
            }],
            stub: PRINTS,
            list: &[],
        },
        lines: "! make 1\n! enter 1\n0\n",
        end: End::Aborted,
    },
];

/// Exceptions that leave functions, and what is done on their way.
pub fn rows() -> &'static [Trial] {
    THROWS
}
