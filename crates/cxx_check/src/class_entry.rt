// What is known of a class: its size, its chain of bases, and whether an object of it needs no arguments.
ghost use Rattle.std.specs.Prelude.{◌≡◌, ◌+◌, IfOk};
ghost use Rattle.cxx_ast.specs.Declare.{have_default, base_has_default, needs_no_arguments};
ghost use Rattle.cxx_ast.specs.Sizes.{class_size, kind_size, fields_size, size_of, chain_of};
ghost use Rattle.cxx_check.specs.ClassParts.{entry_in, kind_has_default};
ghost use Rattle.cxx_rules.specs.KindOf.{kind_of};

use crate::NoMemory;
use cxx_rules::{
    ClassEntry, Environment, Field, Kind, Signature, Size, constructor_with, declares_constructor,
    has_default,
};
use std::alloc::Global;

// A size with that of a class behind it.
fn with_class(
    alloc: Global,
    env: &Environment<'_>,
    total: Size,
    class: usize,
) -> Result<Size, NoMemory>
    ensures { IfOk result (λ s. s ≡ total + class_size env.now class) }
{
    match env.class(class) {
        None => Ok(total),
        Some(c) => total.plus(alloc, c.size()),
    }
}

// A size with that of a data member behind it.
fn with_kind(
    alloc: Global,
    env: &Environment<'_>,
    total: Size,
    kind: Kind,
) -> Result<Size, NoMemory>
    ensures { IfOk result (λ s. s ≡ total + kind_size env.now (kind_of kind)) }
{
    match kind {
        Kind::Class(class) => with_class(alloc, env, total, class),
        _ => {
            let four = Size::new(alloc, 4)?;
            total.plus(alloc, &four)
        }
    }
}

// A size with those of data members behind it.
fn with_fields(
    alloc: Global,
    env: &Environment<'_>,
    start: Size,
    fields: &[Field<'_>],
) -> Result<Size, NoMemory>
    ensures { IfOk result (λ s. s ≡ start + fields_size env.now fields.now) }
{
    let mut total = start;
    for f in fields {
        total = with_kind(alloc, env, total, f.kind())?;
    }
    Ok(total)
}

// The size of a class by its base and its data members.
fn size_of(
    alloc: Global,
    env: &Environment<'_>,
    base: Option<usize>,
    fields: &[Field<'_>],
) -> Result<Size, NoMemory>
    ensures { IfOk result (λ s. s ≡ size_of env.now base fields.now) }
{
    let nothing = Size::new(alloc, 0)?;
    match base {
        None => match fields {
            [] => Size::new(alloc, 4),
            [..] => with_fields(alloc, env, nothing, fields),
        },
        Some(b) => {
            let inherited = with_class(alloc, env, nothing, b)?;
            with_fields(alloc, env, inherited, fields)
        }
    }
}

// How many classes a chain of bases has; no more than there are numbers have room.
fn chain_of(env: &Environment<'_>, base: Option<usize>) -> Result<usize, NoMemory>
    ensures { IfOk result (λ n. n ≡ chain_of env.now base) }
{
    match base {
        None => Ok(1),
        Some(b) => match env.class(b) {
            None => Ok(1),
            Some(c) => c.chain().checked_add(1).ok_or(NoMemory),
        },
    }
}

// A data member needs no arguments.
fn kind_has_default(env: &Environment<'_>, kind: Kind) -> bool
    ensures { result ≡ kind_has_default env.now (kind_of kind) }
{
    match kind {
        Kind::Class(class) => has_default(env, class),
        _ => true,
    }
}

// Each class among data members needs no arguments.
fn have_default(env: &Environment<'_>, fields: &[Field<'_>]) -> bool
    ensures { result ≡ have_default env.now fields.now }
{
    for f in fields {
        if !kind_has_default(env, f.kind()) {
            return false;
        }
    }
    true
}

// A base needs no arguments.
fn base_has_default(env: &Environment<'_>, base: Option<usize>) -> bool
    ensures { result ≡ base_has_default env.now base }
{
    match base {
        None => true,
        Some(b) => has_default(env, b),
    }
}

// An object of a class needs no arguments.
fn needs_no_arguments(
    env: &Environment<'_>,
    class: usize,
    text: &[u8],
    base: Option<usize>,
    fields: &[Field<'_>],
    functions: &[Signature<'_>],
) -> bool
    ensures { result ≡ needs_no_arguments env.now class text.now base fields.now functions.now }
{
    if declares_constructor(text, functions) {
        constructor_with(class, text, 0, functions).is_some()
    } else {
        base_has_default(env, base) && have_default(env, fields)
    }
}

/// A class of its parts.
pub fn class_entry<'t>(
    alloc: Global,
    env: &Environment<'t>,
    class: usize,
    base: Option<usize>,
    fields: Vec<Field<'t>>,
    functions: Vec<Signature<'t>>,
    text: &'t [u8],
) -> Result<ClassEntry<'t>, NoMemory>
    ensures { IfOk result (λ entry. entry ≡ entry_in env.now class base fields.entry.items functions.entry.items text.now) }
{
    let chain = chain_of(env, base)?;
    let size = size_of(alloc, env, base, fields.as_slice())?;
    let has_default = needs_no_arguments(
        env,
        class,
        text,
        base,
        fields.as_slice(),
        functions.as_slice(),
    );
    ClassEntry::new(
        alloc,
        text,
        base,
        fields,
        functions,
        size,
        chain,
        has_default,
    )
}
