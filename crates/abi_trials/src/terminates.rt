// Calls of terminate.
use crate::image::{CATCHES_ALL, CATCHES_INT, Code, Function, INT, PRINTS};
use crate::op::Op;
use crate::trials::Trial;
use cxa_runtime::End;

static TERMINATES: &[Trial] = &[
    Trial {
        name: "the handler that was in effect at the throw",
        code: Code {
            functions: &[Function {
                ops: &[
                    Op::Enter,
                    Op::With(11, 5),
                    Op::Make(1, INT),
                    Op::Runtime(5),
                    Op::Runtime(6),
                    Op::With(11, 6),
                    Op::Runtime(8),
                ],
                sites: &[(3, 4, CATCHES_INT), (6, 0, None)],
            }],
            stub: PRINTS,
            list: &[],
        },
        lines: "! make 1\n! enter 1\n! enter 1\n5\n",
        end: End::Aborted,
    },
    Trial {
        name: "the handler in effect, for a foreign exception",
        code: Code {
            functions: &[Function {
                ops: &[Op::Enter, Op::With(11, 6), Op::With(14, 0)],
                sites: &[(2, 0, None)],
            }],
            stub: PRINTS,
            list: &[],
        },
        lines: "! foreign 1 0 7\n6\n",
        end: End::Aborted,
    },
    Trial {
        name: "a foreign exception beside another that is caught",
        code: Code {
            functions: &[Function {
                ops: &[
                    Op::Enter,
                    Op::Make(1, INT),
                    Op::Runtime(5),
                    Op::Runtime(6),
                    Op::With(14, 0),
                    Op::Runtime(6),
                ],
                sites: &[(2, 3, CATCHES_INT), (4, 5, CATCHES_ALL)],
            }],
            stub: PRINTS,
            list: &[],
        },
        lines: "! make 1\n! enter 1\n! foreign 2 0 7\n0\n",
        end: End::Aborted,
    },
    Trial {
        name: "the handler that is kept with an exception, which is not entered",
        code: Code {
            functions: &[Function {
                ops: &[
                    Op::Enter,
                    Op::With(11, 5),
                    Op::Make(1, INT),
                    Op::Runtime(5),
                    Op::Keep,
                    Op::With(11, 6),
                    Op::Back,
                    Op::Runtime(20),
                ],
                sites: &[(3, 4, CATCHES_INT)],
            }],
            stub: PRINTS,
            list: &[],
        },
        lines: "! make 1\n5\n",
        end: End::Aborted,
    },
    Trial {
        name: "a throw that nothing handles while terminate is running",
        code: Code {
            functions: &[Function {
                ops: &[Op::Enter, Op::Runtime(13)],
                sites: &[],
            }],
            stub: &[Op::Make(1, INT), Op::Runtime(5), Op::With(1, 1)],
            list: &[],
        },
        lines: "! make 1\n",
        end: End::Aborted,
    },
    Trial {
        name: "a throw again of what is on its way",
        code: Code {
            functions: &[Function {
                ops: &[
                    Op::Enter,
                    Op::With(11, 3),
                    Op::Make(1, INT),
                    Op::Runtime(5),
                    Op::Runtime(6),
                    Op::Runtime(8),
                    Op::Runtime(8),
                ],
                sites: &[(3, 4, CATCHES_INT), (5, 6, CATCHES_ALL)],
            }],
            stub: PRINTS,
            list: &[],
        },
        lines: "! make 1\n! enter 1\n3\n",
        end: End::Aborted,
    },
];

/// What calls terminate, and with which handler.
pub fn rows() -> &'static [Trial] {
    TERMINATES
}
