// Reserved words among words.
ghost use Rattle.std.specs.Prelude.{◌≡◌, find, bytes_eq};
ghost use Rattle.cxx_ast.specs.Keywords.{spelling};
ghost use Rattle.cxx_ast.specs.Lexeme.{keyword_of};

use cxx_ast::keyword::Keyword;

// The reserved word that some bytes spell, where they spell one.
pub fn keyword_of(bytes: &[u8]) -> Option<Keyword>
    ensures { result ≡ keyword_of bytes.now }
{
    first_spelled(&Keyword::ALL, bytes)
}

fn first_spelled(words: &[Keyword], bytes: &[u8]) -> Option<Keyword>
    ensures { result ≡ find (λ k. bytes_eq (spelling k) bytes.now) words.now }
{
    for word in words {
        if is_spelled(*word, bytes) {
            return Some(*word);
        }
    }
    None
}

fn is_spelled(word: Keyword, bytes: &[u8]) -> bool
    ensures { result ≡ bytes_eq (spelling word) bytes.now }
{
    word.spelling().as_bytes() == bytes
}
