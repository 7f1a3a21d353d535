// Built-in functions.
ghost use Rattle.std.specs.Prelude.{◌≡◌, ◌++◌, OnOk};
ghost use Rattle.machine_forms.specs.RuntimeCall as rules;

use crate::code::Code;
use crate::runtime_call::{put_runtime_call, put_zero};
use crate::{NoMemory, runtime_call as number};
use cxx_ast::name::Builtin;

/// A call of a built-in function, whose arguments stand in registers.
pub fn put_builtin_call(builtin: Builtin, code: &mut Code) -> Result<(), NoMemory>
    ensures { OnOk result (code.new ≡ code.old ++ rules.builtin_call builtin) }
{
    match builtin {
        Builtin::WriteInt => put_runtime_call(number::WRITE_INT, code),
        Builtin::ReadByte => put_runtime_call(number::READ_BYTE, code),
        Builtin::Exit => put_runtime_call(number::EXIT, code),
        Builtin::Module => put_runtime_call(number::MODULE, code),
        Builtin::Cancel => put_runtime_call(number::CANCEL, code),
        Builtin::Terminate => put_runtime_call(number::TERMINATE, code),
        Builtin::SetTerminate => put_runtime_call(number::SET_TERMINATE, code),
        Builtin::SetUnexpected => put_runtime_call(number::SET_UNEXPECTED, code),
        Builtin::Uncaught => put_runtime_call(number::UNCAUGHT, code),
        Builtin::BadException => Ok(()),
    }
}

/// The value of such a call in a0: that of one that gives none is 0.
pub fn put_builtin_value(builtin: Builtin, code: &mut Code) -> Result<(), NoMemory>
    ensures { OnOk result (code.new ≡ code.old ++ rules.builtin_value builtin) }
{
    match builtin {
        Builtin::ReadByte | Builtin::Module | Builtin::Uncaught => Ok(()),
        _ => put_zero(code),
    }
}
