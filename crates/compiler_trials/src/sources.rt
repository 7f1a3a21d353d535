// Sources with many parts.
use std::alloc::Global;
use std::test::Fail;

/// A text that stands so many times between two others.
pub fn repeated(
    alloc: Global,
    before: &str,
    piece: &str,
    count: u32,
    behind: &str,
) -> Result<String, Fail> {
    let mut source = String::from_str(alloc, before)?;
    for _ in 0..count {
        source.push_str(piece)?;
    }
    source.push_str(behind)?;
    Ok(source)
}

/// A class with a constructor and a destructor, a function, and so many functions with an object, a try block and two returns.
pub fn many_functions(alloc: Global, count: u32) -> Result<String, Fail> {
    let mut source = String::from_str(
        alloc,
        "struct A { int n; A(int k) { n = k; } ~A() { } }; int g(int a) { return a; } ",
    )?;
    for number in 0..count {
        let function = format!(in alloc;
            "int f{number}(int a) {{ A b(a); try {{ if (a) throw a; g(a); }} catch (int e) {{ return e; }} return a + 1; }} "
        )?;
        source.push_str(function.as_str())?;
    }
    source.push_str("int main() { return 0; }")?;
    Ok(source)
}

/// A function that throws, so many that each call the one before it with an object, catch its exception and throw another, and `main`,
/// which calls the last.
pub fn calling_functions(alloc: Global, count: u32) -> Result<String, Fail> {
    let mut source = String::from_str(
        alloc,
        "struct A { int n; A(int k) { n = k; } ~A() { write_int(n); } }; void f0() { A a(0); throw 0; } ",
    )?;
    let mut called = 0;
    for number in 1..count {
        let function = format!(in alloc;
            "void f{number}() {{ A a({number}); try {{ f{called}(); }} catch (int e) {{ throw e + 1; }} }} "
        )?;
        source.push_str(function.as_str())?;
        called = number;
    }
    let main = format!(in alloc;
        "int main() {{ try {{ f{called}(); }} catch (int e) {{ write_int(e); }} return 0; }}"
    )?;
    source.push_str(main.as_str())?;
    Ok(source)
}

/// A function with so many objects in one block, and a return behind the last.
pub fn many_objects(alloc: Global, count: u32) -> Result<String, Fail> {
    let mut source = String::from_str(alloc, "struct A { }; void f() { ")?;
    for number in 0..count {
        let object = format!(in alloc; "A a{number}; ")?;
        source.push_str(object.as_str())?;
    }
    source.push_str("return; } int main() { return 0; }")?;
    Ok(source)
}
