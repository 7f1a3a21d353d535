// Bytes by their use, and runs of bytes at the start of a text.
ghost use Rattle.std.specs.Prelude.{◌≡◌, ◌==◌, not, length, take_while};
ghost use Rattle.cxx_ast.specs.Bytes.{is_blank, is_word_byte};
ghost use Rattle.cxx_lexer.specs.Close.{close_from};

pub fn is_blank(byte: u8) -> bool
    ensures { result ≡ is_blank byte }
{
    matches!(byte, b'\t'..=b'\r' | b' ')
}

// A letter, a digit or `_`.
pub fn is_word_byte(byte: u8) -> bool
    ensures { result ≡ is_word_byte byte }
{
    byte.is_ascii_alphanumeric() || byte == b'_'
}

// The number of letters, digits and underscores that a text begins with.
pub fn word_length(text: &[u8]) -> usize
    ensures { result ≡ length (take_while is_word_byte text.now) }
{
    text.iter().take_while(|byte| is_word_byte(**byte)).count()
}

// The number of bytes before the first line feed of a text.
pub fn line_length(text: &[u8]) -> usize
    ensures { result ≡ length (take_while (λ b. not (b == 10)) text.now) }
{
    text.iter().take_while(|byte| **byte != b'\n').count()
}

// The number of bytes before the first `*/` of a text, where there is one.
pub fn close_at(text: &[u8]) -> Option<usize>
    ensures { result ≡ close_from 0 text.now }
{
    for at in 0..text.len() {
        if text[at..].starts_with(b"*/") {
            return Some(at);
        }
    }
    None
}
