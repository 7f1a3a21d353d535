// The passes of the front end.
ghost use Rattle.std.specs.Prelude.{◌≤◌, length};
ghost use Rattle.cxx_ast.specs.Limits.{most_bytes};
ghost use Rattle.cxx_front.specs.Answer.{Answers};

use crate::error::SourceError;
use cxx_ast::program::Checked;
use cxx_ast::standard::Std;
use cxx_check::check;
use cxx_lexer::lex;
use cxx_parser::parse;
use std::alloc::Global;

/// The checked program by a standard of a source of at most 1 MiB, in which every name is bound to what it stands for.
///
/// A source that has none is refused by its tokens, by the grammar or by the static rules of the standard, whichever comes first in this order. Places
/// count bytes from the source's start.
pub fn checked(alloc: Global, source: &[u8], standard: Std) -> Result<Checked, SourceError>
    requires { length source.now ≤ most_bytes }
    ensures { Answers standard source.now result }
{
    let tokens = lex(alloc, source)?;
    let program = parse(alloc, tokens.as_slice(), source.len() as u32)?;
    let checked = check(alloc, program, standard)?;
    Ok(checked)
}
