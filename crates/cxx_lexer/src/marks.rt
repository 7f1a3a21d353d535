// Marks at the start of a text.
ghost use Rattle.std.specs.Prelude.{◌≡◌, find};
ghost use Rattle.cxx_ast.specs.Lexeme.{begins_with};
ghost use Rattle.cxx_ast.specs.Marks.{spelling, marks};

use cxx_ast::mark::Mark;

// The longest mark that a text begins with, where it begins with one.
pub fn mark_at(text: &[u8]) -> Option<Mark>
    ensures { result ≡ find (λ m. begins_with (spelling m) text.now) marks }
{
    first_in(&Mark::ALL, text)
}

fn first_in(marks: &[Mark], text: &[u8]) -> Option<Mark>
    ensures { result ≡ find (λ m. begins_with (spelling m) text.now) marks.now }
{
    for mark in marks {
        if begins_with(*mark, text) {
            return Some(*mark);
        }
    }
    None
}

fn begins_with(mark: Mark, text: &[u8]) -> bool
    ensures { result ≡ begins_with (spelling mark) text.now }
{
    text.starts_with(mark.spelling().as_bytes())
}
