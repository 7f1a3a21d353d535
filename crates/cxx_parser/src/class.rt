// Reading classes.
ghost use Rattle.std.specs.Prelude.{ℕ, ◌≡◌, ◌≤◌, ◌<◌, ◌-◌, ◌++◌, ◌∷◌, [], List, false, IfOk, IfErr, length};
ghost use Rattle.cxx_ast.specs.declared.mark.Mark.TheVariants as sign;
ghost use Rattle.cxx_ast.specs.declared.token.TokenKind.TheVariants as kind;
ghost use Rattle.cxx_ast.specs.declared.name.Name.{Name};
ghost use Rattle.cxx_ast.specs.Limits.{most_tokens};
ghost use Rattle.cxx_ast.specs.Plain.{Declaration, class_declaration};
ghost use Rattle.cxx_ast.specs.View.{class_of, function_of};
ghost use Rattle.cxx_parser.specs.Classes.{empty_class, kind_in};
ghost use Rattle.cxx_parser.specs.Contexts.{OpenClass, Holder, of_class, of_int, of_void, of_destructor, of_class_name, of_base};
ghost use Rattle.cxx_parser.specs.Functions.{have_function};
ghost use Rattle.cxx_parser.specs.Gives.{Gives, begins};
ghost use Rattle.cxx_parser.specs.Members.{open_class, joined};
ghost use Rattle.cxx_parser.specs.Reading.{read};
ghost use Rattle.cxx_parser.specs.States.{expect, want_name, after_class_name, after_class_colon, in_class, want_member, after_member_name, want_declaration};
ghost use Rattle.cxx_parser.specs.declared.error.ParseError.TheVariants.{NoMemory as OutOfMemory};

use crate::error::ParseError;
use crate::function::{Heading, definition, function};
use crate::tokens::{
    Read, after_mark, after_name, after_word, expect_mark, is_bad_exception, name, place_of,
};
use cxx_ast::declaration::{ClassDecl, Func, FuncKind};
use cxx_ast::keyword::Keyword;
use cxx_ast::mark::Mark;
use cxx_ast::name::Name;
use cxx_ast::token::Token;
use cxx_ast::types::{Param, Ty};
use std::alloc::Global;

// A member of a class.
#[derive(Drop)]
pub enum Member {
    Data(Param),
    Function(Func),
}

// A class, behind `struct`.
#[tactic(auto, unfolding(crate::specs::Reading::read, crate::specs::Reading::feed))]
pub fn class(alloc: Global, tokens: &[Token], end: u32) -> Read<'_, ClassDecl>
    requires { length tokens.now < most_tokens }
    ensures gives { (total : ℕ) (ds : List Declaration) → length tokens.now ≤ total → Gives (λ x. read total end x.1.now (want_declaration (ds ++ (class_declaration (class_of x.0) ∷ [])))) result (read total end tokens.now (want_name (of_class_name ds))) }
    ensures shorter { IfOk result (λ x. length x.1.now < length tokens.now) }
{
    let (name, rest) = name(alloc, tokens, end)?;
    let (base, rest) = base(alloc, rest, end)?;
    let (class, rest) = members(alloc, name, base, rest, end)?;
    let rest = expect_mark(rest, Mark::Semicolon, end)?;
    Ok((class, rest))
}

// The base of a class, where it has one, and the `{` of its members.
#[tactic(auto, unfolding(crate::specs::Reading::read, crate::specs::Reading::feed))]
fn base(alloc: Global, tokens: &[Token], end: u32) -> Read<'_, Option<Name>>
    ensures gives { (total : ℕ) (n : Name) (ds : List Declaration) → Gives (λ x. read total end x.1.now (in_class (empty_class n x.0 ds))) result (read total end tokens.now (after_class_name n ds)) }
    ensures shorter { IfOk result (λ x. length x.1.now < length tokens.now) }
{
    match after_mark(tokens, Mark::Colon) {
        Some(rest) => {
            let rest = after_public(rest);
            let (base, rest) = name(alloc, rest, end)?;
            let rest = expect_mark(rest, Mark::OpenBrace, end)?;
            Ok((Some(base), rest))
        }
        None => {
            let rest = expect_mark(tokens, Mark::OpenBrace, end)?;
            Ok((None, rest))
        }
    }
}

// What stands behind `public`, where that stands.
#[tactic(auto, using(crate::proofs::Classed::no_public), unfolding(crate::specs::Reading::read, crate::specs::Reading::feed))]
fn after_public(tokens: &[Token]) -> &[Token]
    ensures gives { (total end : ℕ) (n : Name) (ds : List Declaration) → read total end tokens.now (after_class_colon n ds) ≡ read total end result.now (want_name (of_base n ds)) }
    ensures shorter { length result.now ≤ length tokens.now }
{
    match after_word(tokens, Keyword::Public) {
        Some(rest) => rest,
        None => tokens,
    }
}

// The members of a class, and `}`.
#[tactic(auto, using(crate::proofs::Classed::another_member), unfolding(crate::specs::Reading::read, crate::specs::Reading::feed))]
fn members(
    alloc: Global,
    name: Name,
    base: Option<Name>,
    tokens: &[Token],
    end: u32,
) -> Read<'_, ClassDecl>
    requires { length tokens.now < most_tokens }
    ensures gives { (total : ℕ) (ds : List Declaration) → length tokens.now ≤ total → Gives (λ x. read total end x.1.now (expect (kind.Mark sign.Semicolon) (want_declaration (ds ++ (class_declaration (class_of x.0) ∷ []))))) result (read total end tokens.now (in_class (empty_class name base ds))) }
    ensures shorter { IfOk result (λ x. length x.1.now < length tokens.now) }
{
    let mut class = ClassDecl {
        name,
        base,
        members: Vec::new(alloc),
        funcs: Vec::new(alloc),
    };
    let mut rest = tokens;
    loop {
        if let Some(after) = after_mark(rest, Mark::CloseBrace) {
            return Ok((class, after));
        }
        let (next, more) = any_member(alloc, rest, end)?;
        class = with_member(class, next)?;
        rest = more;
    }
}

// A class with a further member.
#[tactic(auto, using(crate::proofs::Classed::mapped_last_function))]
fn with_member(class: ClassDecl, member: Member) -> Result<ClassDecl, ParseError>
    ensures gives { (ds : List Declaration) → IfOk result (λ c. open_class c ds ≡ joined (open_class class ds) member) }
    ensures only { IfErr result (λ e. e ≡ OutOfMemory) }
{
    let mut class = class;
    match member {
        Member::Data(param) => class.members.push(param)?,
        Member::Function(func) => class.funcs.push(func)?,
    }
    Ok(class)
}

// A member of a class.
#[tactic(auto, using(crate::proofs::Classed::behind_tilde), unfolding(crate::specs::Reading::read, crate::specs::Reading::feed))]
fn any_member(alloc: Global, tokens: &[Token], end: u32) -> Read<'_, Member>
    requires { length tokens.now < most_tokens }
    ensures gives { (total : ℕ) (c : OpenClass) → length tokens.now ≤ total → Gives (λ x. read total end x.1.now (in_class (joined c x.0))) result (read total end tokens.now (want_member c)) }
    ensures shorter { IfOk result (λ x. length x.1.now < length tokens.now) }
{
    let left = tokens.len();
    if let Some(rest) = after_word(tokens, Keyword::Int) {
        return int_member(alloc, left, rest, end);
    }
    if let Some(rest) = after_word(tokens, Keyword::Void) {
        let (func, rest) = void_function(alloc, FuncKind::Method, left, rest, end)?;
        return Ok((Member::Function(func), rest));
    }
    if let Some(rest) = after_mark(tokens, Mark::Tilde) {
        return destructor(alloc, rest, end);
    }
    match after_name(alloc, tokens)? {
        Some((first, rest)) => named_member(alloc, first, left, rest, end),
        None => Err(ParseError::Unexpected(place_of(tokens, end))),
    }
}

// A function of a kind with the result `void`, behind that word, with so many tokens from it on.
#[tactic(auto, unfolding(crate::specs::Reading::read, crate::specs::Reading::feed))]
pub fn void_function(
    alloc: Global,
    kind: FuncKind,
    left: usize,
    tokens: &[Token],
    end: u32,
) -> Read<'_, Func>
    requires behind { length tokens.now < left }
    requires few { left ≤ most_tokens }
    ensures gives { (total : ℕ) (h : Holder) → kind_in h ≡ kind → left ≤ total → Gives (λ x. read total end x.1.now (have_function (function_of x.0) h)) result (read total end tokens.now (want_name (of_void (total - left) h))) }
    ensures shorter { IfOk result (λ x. length x.1.now < length tokens.now) }
{
    let (name, rest) = name(alloc, tokens, end)?;
    let rest = expect_mark(rest, Mark::OpenParen, end)?;
    let heading = Heading {
        kind,
        result: Ty::Void,
        name,
        left,
    };
    function(alloc, heading, rest, end)
}

// An int or a function with that result, behind `int`, with so many tokens from it on.
#[tactic(auto, unfolding(crate::specs::Reading::read, crate::specs::Reading::feed))]
fn int_member(alloc: Global, left: usize, tokens: &[Token], end: u32) -> Read<'_, Member>
    requires behind { length tokens.now < left }
    requires few { left ≤ most_tokens }
    ensures gives { (total : ℕ) (c : OpenClass) → left ≤ total → Gives (λ x. read total end x.1.now (in_class (joined c x.0))) result (read total end tokens.now (want_name (of_int (total - left) (of_class c)))) }
    ensures shorter { IfOk result (λ x. length x.1.now < length tokens.now) }
{
    let (name, rest) = name(alloc, tokens, end)?;
    if let Some(rest) = after_mark(rest, Mark::OpenParen) {
        let heading = Heading {
            kind: FuncKind::Method,
            result: Ty::Int,
            name,
            left,
        };
        let (func, rest) = function(alloc, heading, rest, end)?;
        return Ok((Member::Function(func), rest));
    }
    let rest = expect_mark(rest, Mark::Semicolon, end)?;
    let param = Param {
        ty: Ty::Int,
        name: Some(name),
    };
    Ok((Member::Data(param), rest))
}

// A destructor, behind `~`.
#[tactic(auto, unfolding(crate::specs::Reading::read, crate::specs::Reading::feed))]
fn destructor(alloc: Global, tokens: &[Token], end: u32) -> Read<'_, Member>
    requires { length tokens.now < most_tokens }
    ensures gives { (total : ℕ) (c : OpenClass) → length tokens.now ≤ total → Gives (λ x. read total end x.1.now (in_class (joined c x.0))) result (read total end tokens.now (want_name (of_destructor (total - length tokens.now) c))) }
    ensures shorter { IfOk result (λ x. length x.1.now < length tokens.now) }
{
    let left = tokens.len();
    let (name, rest) = name(alloc, tokens, end)?;
    let rest = expect_mark(rest, Mark::OpenParen, end)?;
    let rest = expect_mark(rest, Mark::CloseParen, end)?;
    let heading = Heading {
        kind: FuncKind::Destructor,
        result: Ty::Void,
        name,
        left,
    };
    let (func, rest) = definition(alloc, heading, Vec::new(alloc), rest, end)?;
    Ok((Member::Function(func), rest))
}

// A constructor or an object, behind its first name, with so many tokens from that on.
#[tactic(auto, unfolding(crate::specs::Reading::read, crate::specs::Reading::feed))]
fn named_member(
    alloc: Global,
    first: Name,
    left: usize,
    tokens: &[Token],
    end: u32,
) -> Read<'_, Member>
    requires behind { length tokens.now < left }
    requires few { left ≤ most_tokens }
    ensures gives { (total : ℕ) (c : OpenClass) → left ≤ total → Gives (λ x. read total end x.1.now (in_class (joined c x.0))) result (read total end tokens.now (after_member_name first (total - left) c)) }
    ensures shorter { IfOk result (λ x. length x.1.now < length tokens.now) }
{
    if let Some(rest) = after_mark(tokens, Mark::OpenParen) {
        let heading = Heading {
            kind: FuncKind::Constructor,
            result: Ty::Void,
            name: first,
            left,
        };
        let (func, rest) = function(alloc, heading, rest, end)?;
        return Ok((Member::Function(func), rest));
    }
    match after_name(alloc, tokens)? {
        Some((name, rest)) => {
            if is_bad_exception(&first) {
                return Err(ParseError::Unexpected(place_of(tokens, end)));
            }
            let rest = expect_mark(rest, Mark::Semicolon, end)?;
            let param = Param {
                ty: Ty::Object(first),
                name: Some(name),
            };
            Ok((Member::Data(param), rest))
        }
        None => Err(ParseError::Unexpected(place_of(tokens, end))),
    }
}
