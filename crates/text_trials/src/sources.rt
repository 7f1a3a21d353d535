// The sources of two sizes, byte by byte, and how long the greatest is.
use gen_source::generate;
use std::test::Fail;

static FIRST: &str = "struct A { int n; A(int k) { n = k; } ~A() { write_int(n); } };
void f0() { A a(0); throw 0; }
void f1() { A a(1); try { f0(); } catch (int e) { throw e + 1; } }
int main() { try { f1(); } catch (int e) { write_int(e); } return 0; }
";

static SECOND: &str = "struct A { int n; A(int k) { n = k; } ~A() { write_int(n); } };
void f0() { A a(0); throw 0; }
void f1() { A a(1); try { f0(); } catch (int e) { throw e + 1; } }
void f2() { A a(2); try { f1(); } catch (int e) { throw e + 1; } }
int main() { try { f2(); } catch (int e) { write_int(e); } return 0; }
";

#[test]
fn two_sizes(rt: HostRuntime) -> Result<(), Fail> {
    for (size, text) in [(1, FIRST), (2, SECOND)] {
        let source = generate(rt.alloc(), size)?;
        assert_eq!(rt; source.as_slice(), text.as_bytes(), "{size}");
    }
    Ok(())
}

// The class has 64 bytes, f0 31, main 70 and a number, and each of 2,000 functions 64, its number twice and the one before once. The numbers 1 to 2,000 have
// 6,893 digits, and those from 0 to 1,999 have 6,890.
#[test]
fn the_greatest_size(rt: HostRuntime) -> Result<(), Fail> {
    let source = generate(rt.alloc(), 2000)?;
    assert_eq!(rt; source.len(), 148_845);
    Ok(())
}
