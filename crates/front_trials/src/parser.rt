// What `parse` answers on tokens whose trees and faults were worked out by hand from the grammar.
use cxx_ast::keyword::Keyword;
use cxx_ast::mark::Mark;
use cxx_ast::program::Program;
use cxx_ast::text::Text;
use cxx_ast::token::{Token, TokenKind};
use cxx_parser::{ParseError, parse};
use std::alloc::{AllocError, Global};
use std::test::Fail;

// The token of a word, which stands at its number among the words.
fn token_of(alloc: Global, word: &str, place: u32) -> Result<Token, AllocError> {
    for keyword in Keyword::ALL {
        if keyword.spelling() == word {
            return Ok(Token {
                kind: TokenKind::Word(keyword),
                place,
            });
        }
    }
    for mark in Mark::ALL {
        if mark.spelling() == word {
            return Ok(Token {
                kind: TokenKind::Mark(mark),
                place,
            });
        }
    }
    let kind = match word.parse::<i32>() {
        Ok(value) => TokenKind::Number(value),
        Err(_) => TokenKind::Name(Text::copied(alloc, word.as_bytes())?),
    };
    Ok(Token { kind, place })
}

// The tokens of words with blanks between them, each at its number.
fn tokens_of(alloc: Global, words: &str) -> Result<Vec<Token>, AllocError> {
    let mut tokens = Vec::new(alloc);
    let mut place = 0u32;
    for word in words.split_whitespace() {
        tokens.push(token_of(alloc, word, place)?)?;
        place = place.wrapping_add(1);
    }
    Ok(tokens)
}

// The answer to the tokens, in a source that ends at 99,999.
fn answer(alloc: Global, tokens: &[Token]) -> Result<Program, ParseError> {
    if tokens.len() > 65_536 {
        return Err(ParseError::NoMemory);
    }
    parse(alloc, tokens, 99_999)
}

// The fault of the tokens of words, where they have one.
fn fault_of(alloc: Global, words: &str) -> Result<Option<ParseError>, AllocError> {
    let tokens = tokens_of(alloc, words)?;
    Ok(answer(alloc, tokens.as_slice()).err())
}

// Words, and how many declarations they are.
static PRODUCTIONS: &[(&str, usize)] = &[
    ("", 0),
    ("int x ;", 1),
    ("int x = 5 ; int y = - 7 ;", 2),
    (
        "void f ( ) ; int f ( int , int a , int & b , const int & , A & , const A & c ) throw ( ) { }",
        2,
    ),
    ("void f ( ) throw ( int , A , std :: bad_exception ) ;", 1),
    (
        "struct A { } ; struct B : A { } ; struct C : public B { } ;",
        3,
    ),
    (
        "struct A { int n ; B b ; int m ( ) { } void v ( int ) throw ( ) { } A ( ) { } A ( int k ) : n ( k ) , b ( ) { } ~ A ( ) throw ( ) { } } ;",
        1,
    ),
    (
        "int f ( ) { { } ; if ( a ) ; if ( a ) ; else ; while ( a ) ; return ; return a ; break ; continue ; throw ; throw A ( ) ; }",
        1,
    ),
    (
        "int f ( ) { try { } catch ( ... ) { } catch ( int ) { } catch ( int & e ) { } catch ( const A & ) { } catch ( A a ) { } catch ( std :: bad_exception ) { } }",
        1,
    ),
    (
        "int f ( ) { a = b ; a . b . c = d ; f ( ) ; a . f ( b , c ) ; std :: terminate ( ) ; int x ; int y = 1 ; }",
        1,
    ),
    (
        "int f ( ) { int & r = x ; const int & s = a . b ; A & t = u ; const A & v = w ; A o ; A p ( 1 , 2 ) ; }",
        1,
    ),
    (
        "int f ( ) { return - ! 1 * ( a . b % f ( ) ) / std :: g ( x , 2 ) + 3 - 4 < 5 > 6 <= 7 >= 8 == 9 != 10 && 11 || 12 ; }",
        1,
    ),
];

// Words, and the number of the first that no program has there, or 99,999 for the end.
static UNFIT: &[(&str, u32)] = &[
    ("int", 99999),
    ("int x", 99999),
    ("int x = ;", 3),
    ("int x = - ;", 4),
    ("int x = a ;", 3),
    ("int x = -7 ;", 3),
    ("x ;", 0),
    ("class A { } ;", 0),
    ("int f ( ) { return 1 }", 7),
    ("int f ( ) { return 1 ;", 99999),
    ("int f ( ) { 1 + 2 ; }", 5),
    ("int f ( ) { a + 1 ; }", 6),
    ("int f ( ) { x = 1 + + 2 ; }", 9),
    ("int f ( ) { x = 1 * ; }", 9),
    ("int f ( ) { int for ; }", 6),
    ("int f ( ) { for ( ) ; }", 5),
    ("int f ( ) { switch ( a ) { } }", 5),
    ("int f ( ) { x = y = 1 ; }", 8),
    ("int f ( ) { int a , b ; }", 7),
    ("int f ( ) { if ( a ) int b ; }", 9),
    ("int f ( ) { if ( a ) A b ; }", 10),
    ("int f ( ) { if ( int a = 1 ) ; }", 7),
    ("int f ( ) { else ; }", 5),
    ("int f ( ) { try { } }", 8),
    ("int f ( ) { try ; }", 6),
    ("int f ( ) { try { } catch ( ) { } }", 10),
    ("int f ( ) { try { } catch ( const int ) { } }", 12),
    ("int f ( ) { try { } catch ( ... x ) { } }", 11),
    ("void f ( ) throw ;", 5),
    ("void f ( ) throw ( int & ) ;", 7),
    ("void f ( ) throw ( A :: b ) ;", 7),
    ("void f ( ) throw ( std :: b ) ;", 8),
    ("int f ( ) { A :: b ( ) ; }", 6),
    ("int f ( ) { x = A :: b ( ) ; }", 8),
    ("int f ( ) { std :: b ; }", 8),
    ("void f ( A a ) ;", 4),
    ("void f ( int a , ) ;", 6),
    ("struct A { int f ( ) ; } ;", 7),
    ("struct A { A ( ) : { } } ;", 7),
    ("struct A { int f ( ) : n ( ) { } } ;", 7),
    ("struct A { int n , m ; } ;", 5),
    ("struct A { ~ A ( int ) { } } ;", 6),
    ("struct A { }", 99999),
    ("struct A ;", 2),
    ("struct A : private B { } ;", 3),
    ("int f ( ) { } }", 6),
    ("int f ( ) { A x ( ) ; }", 8),
    ("int f ( ) { int & r = 1 ; }", 9),
    ("int f ( ) { return ( a ; }", 8),
    ("int f ( ) { f ( a , ) ; }", 9),
    ("int f ( ) { a . 1 = 2 ; }", 7),
    ("int f ( ) { x ++ ; }", 6),
    ("void f ( std::bad_exception & ) ;", 3),
    ("int f ( ) { std::bad_exception & a = b ; }", 6),
    ("struct A { std::bad_exception b ; } ;", 4),
    ("void f ( ) throw ( std::bad_exception ) ;", 6),
    ("void f ( const std::bad_exception & ) ;", 4),
];

#[test]
fn tokens_that_fit_and_that_do_not(rt: HostRuntime) -> Result<(), Fail> {
    for (words, declarations) in PRODUCTIONS {
        let tokens = tokens_of(rt.alloc(), words)?;
        let count = answer(rt.alloc(), tokens.as_slice()).map(|program| program.decls.len());
        assert_eq!(rt; count, Ok(*declarations));
    }
    for (words, place) in UNFIT {
        let fault = fault_of(rt.alloc(), words)?;
        assert_eq!(rt; fault, Some(ParseError::Unexpected(*place)));
    }
    Ok(())
}

// The text before, what is put one into another, what stands inside, what closes each, and what stands behind; how often it may be, and the place of
// the fault where it stands once more.
struct Nest {
    text: [&'static str; 5],
    most: u32,
    place: u32,
}

static NESTS: &[Nest] = &[
    Nest {
        text: ["int f ( ) {", "{", "", "}", "}"],
        most: 62,
        place: 67,
    },
    Nest {
        text: ["struct A { void f ( ) {", "{", "", "}", "} } ;"],
        most: 62,
        place: 70,
    },
    Nest {
        text: ["int f ( ) { return", "(", "1", ")", "; }"],
        most: 60,
        place: 66,
    },
    Nest {
        text: ["int f ( ) { return", "-", "1", "", "; }"],
        most: 60,
        place: 66,
    },
    Nest {
        text: ["int f ( ) { return", "!", "1", "", "; }"],
        most: 60,
        place: 66,
    },
    Nest {
        text: ["int f ( ) { return 1", "+ 1", "", "", "; }"],
        most: 60,
        place: 127,
    },
    Nest {
        text: ["int f ( ) {", "if ( a ) ; else", ";", "", "}"],
        most: 61,
        place: 371,
    },
    Nest {
        text: ["int f ( ) {", "while ( a )", ";", "", "}"],
        most: 61,
        place: 249,
    },
    Nest {
        text: ["int f ( ) {", "try {", "", "} catch ( ... ) { }", "}"],
        most: 30,
        place: 65,
    },
    Nest {
        text: ["int f ( ) {", "try { } catch ( ... ) {", "", "}", "}"],
        most: 20,
        place: 165,
    },
    Nest {
        text: ["int f ( ) {", "f (", "1", ")", "; }"],
        most: 60,
        place: 127,
    },
    Nest {
        text: ["int f ( ) {", "f (", "", ")", "; }"],
        most: 61,
        place: 127,
    },
    Nest {
        text: ["struct A { A ( ) : n (", "(", "1", ")", ") { } } ;"],
        most: 62,
        place: 71,
    },
    Nest {
        text: ["int f ( ) {", "{", "A x ; A y ( 1 ) ;", "}", "}"],
        most: 60,
        place: 71,
    },
    Nest {
        text: ["int f ( ) {", "{", "x = 1 ;", "}", "}"],
        most: 60,
        place: 67,
    },
    Nest {
        text: ["int f ( ) {", "{", "f ( ) ;", "}", "}"],
        most: 60,
        place: 67,
    },
    Nest {
        text: ["int f ( ) {", "{", "a . b = 1 ;", "}", "}"],
        most: 60,
        place: 67,
    },
    Nest {
        text: ["int f ( ) {", "{", "int x = 1 ;", "}", "}"],
        most: 60,
        place: 68,
    },
    Nest {
        text: ["int f ( ) {", "{", "return 1 ;", "}", "}"],
        most: 60,
        place: 67,
    },
    Nest {
        text: ["int f ( ) {", "{", "std :: f ( ) ;", "}", "}"],
        most: 60,
        place: 66,
    },
    Nest {
        text: [
            "int f ( ) {",
            "{",
            "throw ; ; break ; int & a = b ;",
            "}",
            "}",
        ],
        most: 61,
        place: 67,
    },
];

// A text put so many times into itself.
fn nested(alloc: Global, text: &[&str; 5], count: u32) -> Result<String, AllocError> {
    let [before, open, inner, close, behind] = *text;
    let mut words = String::from_str(alloc, before)?;
    for _ in 0..count {
        words.push_str(" ")?;
        words.push_str(open)?;
    }
    words.push_str(" ")?;
    words.push_str(inner)?;
    for _ in 0..count {
        words.push_str(" ")?;
        words.push_str(close)?;
    }
    words.push_str(" ")?;
    words.push_str(behind)?;
    Ok(words)
}

#[test]
fn the_greatest_depth(rt: HostRuntime) -> Result<(), Fail> {
    for nest in NESTS {
        let words = nested(rt.alloc(), &nest.text, nest.most)?;
        assert_eq!(rt; fault_of(rt.alloc(), words.as_str())?, None);
        let words = nested(rt.alloc(), &nest.text, nest.most.wrapping_add(1))?;
        let fault = fault_of(rt.alloc(), words.as_str())?;
        assert_eq!(rt; fault, Some(ParseError::TooDeep(nest.place)));
    }
    // `x` may begin an assignment that would be too deep, but `+` behind it fits nothing.
    let text = ["int f ( ) {", "{", "x + 1 ;", "}", "}"];
    let words = nested(rt.alloc(), &text, 61)?;
    let fault = fault_of(rt.alloc(), words.as_str())?;
    assert_eq!(rt; fault, Some(ParseError::Unexpected(67)));
    Ok(())
}

// Puts a copy of a list's tokens behind others.
fn push_all(alloc: Global, tokens: &mut Vec<Token>, more: &[Token]) -> Result<(), AllocError> {
    for token in more {
        let kind = match &token.kind {
            TokenKind::Name(text) => TokenKind::Name(Text::copied(alloc, text.as_bytes())?),
            TokenKind::Number(value) => TokenKind::Number(*value),
            TokenKind::Word(word) => TokenKind::Word(*word),
            TokenKind::Mark(mark) => TokenKind::Mark(*mark),
        };
        let place = u32::try_from(tokens.len()).unwrap_or(0);
        tokens.push(Token { kind, place })?;
    }
    Ok(())
}

// A beginning, what stands behind it so many times, an end, and the fault.
static LONG: &[(&str, &str, u32, &str, Option<ParseError>)] = &[
    ("int y = 1 ; int z = 2 ;", "int x ;", 21842, "", None),
    ("int f ( ) {", ";", 65530, "}", None),
    ("int f ( ) { f ( 1", ", 1", 32762, ") ; }", None),
    ("struct A {", "int x ;", 21843, "} ;", None),
    (
        "int f ( ) { return - 1",
        "+ 1",
        32763,
        "; }",
        Some(ParseError::TooDeep(126)),
    ),
];

#[test]
fn long_lists(rt: HostRuntime) -> Result<(), Fail> {
    let alloc = rt.alloc();
    for (first, unit, count, last, expected) in LONG {
        let mut tokens = tokens_of(alloc, first)?;
        let unit = tokens_of(alloc, unit)?;
        for _ in 0..*count {
            push_all(alloc, &mut tokens, unit.as_slice())?;
        }
        let last = tokens_of(alloc, last)?;
        push_all(alloc, &mut tokens, last.as_slice())?;
        assert!(rt; tokens.len() > 65_500);
        let fault = answer(alloc, tokens.as_slice()).err();
        assert_eq!(rt; fault, *expected);
    }
    Ok(())
}
