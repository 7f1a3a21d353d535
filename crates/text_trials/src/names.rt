// The bytes of names.
use cxx_ast::text::Text;
use std::test::Fail;

#[test]
fn keeps_the_bytes_of_a_name(rt: HostRuntime) -> Result<(), Fail> {
    let alloc = rt.alloc();
    for name in [b"".as_slice(), b"x", b"_Z9", b"std::bad_exception"] {
        let text = Text::copied(alloc, name)?;
        assert_eq!(rt; text.as_bytes(), name);
        assert_eq!(rt; text, Text::copied(alloc, name)?);
        assert_ne!(rt; text, Text::copied(alloc, b"y")?);
        let bytes = text.into_bytes();
        assert_eq!(rt; bytes.as_slice(), name);
    }
    let text = Text::copied(alloc, b"a\"\xFF")?;
    let shown = format!(in alloc; "{text:?}")?;
    assert_eq!(rt; shown.as_str(), "\"a\\\"\\u{ff}\"");
    Ok(())
}
