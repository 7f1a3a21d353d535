// Calls beside which no exception lives.
use crate::image::{Code, Function, PRINTS};
use crate::op::Op;
use crate::trials::Trial;
use cxa_runtime::End;

static CALLS: &[Trial] = &[
    Trial {
        name: "ints with a sign, and the number of an exit",
        code: Code {
            functions: &[Function {
                ops: &[
                    Op::Enter,
                    Op::With(1, 0xffe),
                    Op::With(1, 1),
                    Op::With(0, 0xffb),
                ],
                sites: &[],
            }],
            stub: PRINTS,
            list: &[],
        },
        lines: "-2\n1\n",
        end: End::Exit(-5),
    },
    Trial {
        name: "behind the end of the input",
        code: Code {
            functions: &[Function {
                ops: &[Op::Enter, Op::Runtime(2), Op::Runtime(1), Op::With(0, 0)],
                sites: &[],
            }],
            stub: PRINTS,
            list: &[],
        },
        lines: "-1\n",
        end: End::Exit(0),
    },
    Trial {
        name: "no exception is on its way",
        code: Code {
            functions: &[Function {
                ops: &[Op::Enter, Op::With(10, 1), Op::Runtime(1), Op::With(0, 0)],
                sites: &[],
            }],
            stub: PRINTS,
            list: &[],
        },
        lines: "0\n",
        end: End::Exit(0),
    },
    Trial {
        name: "a throw again where no handler is entered",
        code: Code {
            functions: &[Function {
                ops: &[Op::Enter, Op::Runtime(8)],
                sites: &[],
            }],
            stub: PRINTS,
            list: &[],
        },
        lines: "0\n",
        end: End::Aborted,
    },
    Trial {
        name: "the handler that was set",
        code: Code {
            functions: &[Function {
                ops: &[Op::Enter, Op::With(11, 3), Op::With(12, 4), Op::Runtime(13)],
                sites: &[],
            }],
            stub: PRINTS,
            list: &[],
        },
        lines: "3\n",
        end: End::Aborted,
    },
    Trial {
        name: "an end at once",
        code: Code {
            functions: &[Function {
                ops: &[Op::Enter, Op::Runtime(16)],
                sites: &[],
            }],
            stub: PRINTS,
            list: &[],
        },
        lines: "",
        end: End::Aborted,
    },
    Trial {
        name: "the end of the stack",
        code: Code {
            functions: &[Function {
                ops: &[Op::Enter, Op::Runtime(17)],
                sites: &[],
            }],
            stub: PRINTS,
            list: &[],
        },
        lines: "",
        end: End::Stack,
    },
];

/// Calls without an exception.
pub fn rows() -> &'static [Trial] {
    CALLS
}
