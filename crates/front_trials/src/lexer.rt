// What `lex` answers on sources whose tokens were written down by hand.
use cxx_ast::token::{Token, TokenKind};
use cxx_lexer::lex;
use std::alloc::{AllocError, Global};
use std::test::Fail;

// The tokens with their places, or the error, as a text.
fn shown(alloc: Global, source: &[u8]) -> Result<String, AllocError> {
    if source.len() > 1_048_576 {
        return String::from_str(alloc, "too long");
    }
    match lex(alloc, source) {
        Ok(tokens) => shown_tokens(alloc, tokens.as_slice()),
        Err(error) => format!(in alloc; "{error}"),
    }
}

fn shown_tokens(alloc: Global, tokens: &[Token]) -> Result<String, AllocError> {
    let mut all = String::new(alloc);
    for token in tokens {
        let one = match &token.kind {
            TokenKind::Name(text) => format!(in alloc; "{}:name {text:?} ", token.place)?,
            TokenKind::Number(value) => format!(in alloc; "{}:{value} ", token.place)?,
            TokenKind::Word(word) => format!(in alloc; "{}:{} ", token.place, word.spelling())?,
            TokenKind::Mark(mark) => format!(in alloc; "{}:{} ", token.place, mark.spelling())?,
        };
        all.push_str(one.as_str())?;
    }
    Ok(all)
}

// Sources, and their tokens or their fault.
static SOURCES: &[(&[u8], &str)] = &[
    (b"", ""),
    (b"int x=7;", "0:int 4:name \"x\" 5:= 6:7 7:; "),
    (b"\t\n\x0B\x0C\r x", "6:name \"x\" "),
    (
        b"_a1 int1 Int _int stdx",
        "0:name \"_a1\" 4:name \"int1\" 9:name \"Int\" 13:name \"_int\" 18:name \"stdx\" ",
    ),
    (b"a+++b", "0:name \"a\" 1:++ 3:+ 4:name \"b\" "),
    (
        b"a<<=b<<c<=d",
        "0:name \"a\" 1:<<= 4:name \"b\" 5:<< 7:name \"c\" 8:<= 10:name \"d\" ",
    ),
    (b"->*->.*.....", "0:->* 3:-> 5:.* 7:... 10:. 11:. "),
    (b":::a", "0::: 2:: 3:name \"a\" "),
    (b"&&&||=", "0:&& 2:& 3:|| 5:= "),
    (b"a/ *b", "0:name \"a\" 1:/ 3:* 4:name \"b\" "),
    (b"a/=/**/b", "0:name \"a\" 1:/= 7:name \"b\" "),
    (b"0 10 2147483647", "0:0 2:10 5:2147483647 "),
    (b"/*/ x */y", "8:name \"y\" "),
    (b"/**/x/***/y", "4:name \"x\" 10:name \"y\" "),
    (b"/* /* */ x", "9:name \"x\" "),
    (b"// /* \n*/", "7:* 8:/ "),
    (b"x // to the end", "0:name \"x\" "),
    (b"//", ""),
    (b"/*\xFF\x00*/x//\x80", "6:name \"x\" "),
    (b"a//b\r\nc", "0:name \"a\" 6:name \"c\" "),
    (b"int main() { @ }", "unexpected byte at 13"),
    (b"x\x80", "unexpected byte at 1"),
    (b"# \\", "unexpected byte at 0"),
    (b"x \\", "unexpected byte at 2"),
    (b"'a'", "unexpected byte at 0"),
    (b"\x00", "unexpected byte at 0"),
    (
        b"int main() { return 2147483648; }",
        "no literal of an int at 20",
    ),
    (b"00", "no literal of an int at 0"),
    (b"x 1a", "no literal of an int at 2"),
    (b"0x1f", "no literal of an int at 0"),
    (b"99999999999999999999", "no literal of an int at 0"),
    (b"/* int main() { }", "open comment at 0"),
    (b"x /*/", "open comment at 2"),
    (b"08 @ /*", "no literal of an int at 0"),
];

// The keywords, the alternative tokens, `std` and the marks, each a token of its own (ISO/IEC 14882:2003, 2.11, 2.12).
static SPELLINGS: &str =
    "asm auto bool break case catch char class const const_cast continue default delete do \
    double dynamic_cast else enum explicit export extern false float for friend goto if inline int long \
    mutable namespace new operator private protected public register reinterpret_cast return short signed \
    sizeof static static_cast struct switch template this throw true try typedef typeid typename union \
    unsigned using virtual void volatile wchar_t while and and_eq bitand bitor compl not not_eq or or_eq \
    xor xor_eq std \
    { } ( ) ; , : :: = == != < <= > >= + - * / % ! && || & ~ . ... ++ -- += -= *= /= %= -> ->* .* << >> \
    <<= >>= &= |= ^= | ^ ? [ ]";

#[test]
fn tokens_of_small_sources(rt: HostRuntime) -> Result<(), Fail> {
    for (source, expected) in SOURCES {
        let answer = shown(rt.alloc(), source)?;
        assert_eq!(rt; answer.as_str(), *expected);
    }
    let mut count = 0u32;
    for word in SPELLINGS.split_whitespace() {
        let answer = shown(rt.alloc(), word.as_bytes())?;
        let expected = format!(in rt.alloc(); "0:{word} ")?;
        assert_eq!(rt; answer.as_str(), expected.as_str());
        count = count.wrapping_add(1);
    }
    assert_eq!(rt; count, 124);
    Ok(())
}

#[test]
fn limits(rt: HostRuntime) -> Result<(), Fail> {
    let alloc = rt.alloc();
    let blanks = vec![in alloc; b' '; 1_048_576]?;
    assert_eq!(rt; shown(alloc, blanks.as_slice())?.as_str(), "");
    let mut source = vec![in alloc; b';'; 65_536]?;
    let most = lex(alloc, source.as_slice()).map_or(0, |tokens| tokens.len());
    assert_eq!(rt; most, 65_536);
    for (more, expected) in [
        (b" //".as_slice(), "many"),
        (b" ;", "too many tokens at 65537"),
        (b" 00", "no literal of an int at 65537"),
        (b" @", "unexpected byte at 65537"),
        (b" /*", "open comment at 65537"),
    ] {
        source.truncate(65_536);
        source.extend_from_slice(more)?;
        assert!(rt; source.len() < 65_600);
        let answer = match lex(alloc, source.as_slice()) {
            Ok(_) => String::from_str(alloc, "many")?,
            Err(error) => format!(in alloc; "{error}")?,
        };
        assert_eq!(rt; answer.as_str(), expected);
    }
    Ok(())
}
