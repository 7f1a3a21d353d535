// The values of literals.
ghost use Rattle.std.specs.Prelude.{◌≡◌, ◌<◌, true, length, pos};
ghost use Rattle.std.specs.Char.{is_ascii_digit};
ghost use Rattle.std.specs.List.{list_all};
ghost use Rattle.std.specs.Option.{option_map};
ghost use Rattle.cxx_ast.specs.Literal.{has_no_leading_zero, is_decimal, int_of, literal_value};

// The value of a literal, where the bytes are one.
pub fn literal_value(bytes: &[u8]) -> Option<i32>
    ensures { result ≡ option_map pos (literal_value bytes.now) }
{
    if is_decimal(bytes) {
        int_of(bytes)
    } else {
        None
    }
}

// `0`, or digits without a leading 0.
fn is_decimal(bytes: &[u8]) -> bool
    ensures { result ≡ is_decimal bytes.now }
{
    bytes == b"0".as_slice() || (are_digits(bytes) && has_no_leading_zero(bytes))
}

fn are_digits(bytes: &[u8]) -> bool
    ensures { result ≡ list_all is_ascii_digit bytes.now }
{
    bytes.iter().all(|byte| byte.is_ascii_digit())
}

fn has_no_leading_zero(bytes: &[u8]) -> bool
    ensures { result ≡ has_no_leading_zero bytes.now }
{
    match bytes {
        [] => false,
        [first, ..] => *first != b'0',
    }
}

// The number that digits write, where it is a value of type int.
#[tactic(auto, using(crate::proofs::Numbers::int_from_parse, crate::proofs::Numbers::digits_are_text))]
fn int_of(digits: &[u8]) -> Option<i32>
    requires digits { list_all is_ascii_digit digits.now ≡ true }
    requires some { 0 < length digits.now }
    ensures { result ≡ option_map pos (int_of digits.now) }
{
    match std::str::from_utf8(digits) {
        Ok(text) => match text.parse::<u32>() {
            Ok(value) => {
                if value <= 2_147_483_647 {
                    Some(value as i32)
                } else {
                    None
                }
            }
            Err(_) => None,
        },
        Err(_) => None,
    }
}
