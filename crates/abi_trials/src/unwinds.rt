// Forced unwinds.
use crate::image::{CATCHES_ALL, CLEANUP, Code, Function, PRINTS};
use crate::op::Op;
use crate::trials::Trial;
use cxa_runtime::End;

static UNWINDS: &[Trial] = &[
    Trial {
        name: "a forced unwind passes by a handler, and exits at the end of the stack",
        code: Code {
            functions: &[
                Function {
                    ops: &[Op::Enter, Op::Call(1), Op::With(1, 1), Op::With(9, 0)],
                    sites: &[(1, 2, CLEANUP), (3, 0, None)],
                },
                Function {
                    ops: &[Op::Enter, Op::Call(2), Op::With(1, 9)],
                    sites: &[(1, 2, CATCHES_ALL)],
                },
                Function {
                    ops: &[Op::Enter, Op::With(15, 4), Op::With(1, 2), Op::With(9, 0)],
                    sites: &[(1, 2, None), (3, 0, None)],
                },
            ],
            stub: PRINTS,
            list: &[],
        },
        lines: "2\n1\n",
        end: End::Exit(4),
    },
    Trial {
        name: "a forced unwind comes to a barrier, behind a cleanup",
        code: Code {
            functions: &[
                Function {
                    ops: &[Op::Enter, Op::Call(1)],
                    sites: &[],
                },
                Function {
                    ops: &[
                        Op::Enter,
                        Op::With(11, 8),
                        Op::With(15, 4),
                        Op::With(1, 2),
                        Op::With(9, 0),
                    ],
                    sites: &[(2, 3, CLEANUP), (4, 0, None)],
                },
            ],
            stub: PRINTS,
            list: &[],
        },
        lines: "2\n8\n",
        end: End::Aborted,
    },
];

/// Forced unwinds to the end of the stack, and to a barrier.
pub fn rows() -> &'static [Trial] {
    UNWINDS
}
