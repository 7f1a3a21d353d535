// Variables that live in registers, as `dump` shows them: behind the saves a row has the register of each, and where its frame keeps what the
// register held.
use crate::outside::{answer, holding, image_of};
use eh_driver::Status;
use std::test::Fail;

// Sources, and the end of the row behind the saves of the first function; the slots stand by docs/CODE.md.
static ROWS: [(&str, &str); 2] = [
    (
        "int g(int a) { int b = a + 1; write_int(b); return b; } int main() { return g(2); }",
        " cfa x2+48 x1=c-40 x9=c-8 x18=c-16\n",
    ),
    (
        "int g(int a) { int b = a; int c = b; int d = c; int e = d; int f = e; int h = f; int i = h; int j = i; int k = j; return k; } int main() { return g(2); }",
        " cfa x2+112 x1=c-104 x9=c-8 x18=c-16 x19=c-24 x20=c-32 x21=c-40 x22=c-48 x23=c-56 x24=c-64 x25=c-72 x26=c-80\n",
    ),
];

fn has(text: &[u8], part: &[u8]) -> bool {
    part.is_empty() || text.windows(part.len()).any(|window| window == part)
}

#[test]
fn rows_of_kept_variables(rt: HostRuntime) -> Result<(), Fail> {
    let alloc = rt.alloc();
    for (source, row) in ROWS.iter() {
        let image = image_of(alloc, source)?;
        let seen = answer(alloc, &["dump", "SRC"], &holding(image.as_slice()))?;
        assert_eq!(rt; seen.status, Status::Done, "{source}");
        assert!(rt; has(seen.out.bytes(), row.as_bytes()), "{source}");
    }
    Ok(())
}
