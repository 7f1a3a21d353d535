// The lines of a text.
ghost use Rattle.std.specs.Prelude.{◌<◌, length};
ghost use Rattle.plain_text.specs.Lines.{IsFirstLine};

use memchr::memchr;

/// How long the first line is, with its line feed.
pub fn line_length(text: &[u8]) -> usize
    requires { 0 < length text.now }
    ensures { IsFirstLine text.now result }
{
    match memchr(b'\n', text) {
        Some(end) => end + 1,
        None => text.len(),
    }
}
