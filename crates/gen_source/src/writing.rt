// Writing the source of a size.
ghost use Rattle.std.specs.Prelude.{◌≡◌, ◌≤◌, ◌<◌, ◌+◌, ◌++◌, ◌^◌, OnOk, IfOk};
ghost use Rattle.std.specs.Fmt.{decimal};
ghost use Rattle.gen_source.specs.Laws.{most};
ghost use Rattle.gen_source.specs.Source.{generated, level_line, main_line};

use crate::NoMemory;
use itoa::Buffer;
use std::alloc::Global;

// Adds a number in decimal.
fn push_number(source: &mut Vec<u8>, n: u32) -> Result<(), NoMemory>
    ensures { OnOk result (source.new.items ≡ source.old.items ++ decimal n) }
{
    let mut buffer = Buffer::new();
    let text = buffer.format(n);
    source.extend_from_slice(text.as_bytes())?;
    Ok(())
}

// Adds a text and a number.
fn push(source: &mut Vec<u8>, text: &str, n: u32) -> Result<(), NoMemory>
    ensures { OnOk result (source.new.items ≡ source.old.items ++ (text.now ++ decimal n)) }
{
    source.extend_from_slice(text.as_bytes())?;
    push_number(source, n)
}

// Adds the line of the function behind function number j.
fn push_level(source: &mut Vec<u8>, j: u32) -> Result<(), NoMemory>
    requires { j < 2 ^ 31 }
    ensures { OnOk result (source.new.items ≡ source.old.items ++ level_line (j + 1) j) }
{
    push(source, "void f", j + 1)?;
    push(source, "() { A a(", j + 1)?;
    push(source, "); try { f", j)?;
    source.extend_from_slice(b"(); } catch (int e) { throw e + 1; } }\n".as_slice())?;
    Ok(())
}

// Adds the line of the main function.
fn push_main(source: &mut Vec<u8>, n: u32) -> Result<(), NoMemory>
    ensures { OnOk result (source.new.items ≡ source.old.items ++ main_line n) }
{
    push(source, "int main() { try { f", n)?;
    source.extend_from_slice(b"(); } catch (int e) { write_int(e); } return 0; }\n".as_slice())?;
    Ok(())
}

/// The source of a size: a class whose destructor writes, a function that throws, so many functions of which each catches what
/// the one before throws and throws one more, and a main function that writes what comes out.
pub fn generate(alloc: Global, n: u32) -> Result<Vec<u8>, NoMemory>
    requires { n ≤ most }
    ensures { IfOk result (λ source. source.items ≡ generated n) }
{
    let mut source = Vec::new(alloc);
    source.extend_from_slice(
        b"struct A { int n; A(int k) { n = k; } ~A() { write_int(n); } };\nvoid f0() { A a(0); throw 0; }\n".as_slice(),
    )?;
    for j in 0..n {
        push_level(&mut source, j)?;
    }
    push_main(&mut source, n)?;
    Ok(source)
}
