// Numbers in decimal digits without superfluous zeros.
ghost use Rattle.std.specs.Prelude.{◌≡◌, ◌≤◌, ◌<◌, IfSome, true, length};
ghost use Rattle.std.specs.Char.{is_ascii_digit};
ghost use Rattle.std.specs.List.{list_all};
ghost use Rattle.plain_text.specs.Decimal.{has_no_leading_zero, int_of, is_decimal, number_of, up_to};

fn are_digits(text: &[u8]) -> bool
    ensures { result ≡ list_all is_ascii_digit text.now }
{
    text.iter().all(|byte| byte.is_ascii_digit())
}

fn has_no_leading_zero(text: &[u8]) -> bool
    ensures { result ≡ has_no_leading_zero text.now }
{
    match text {
        [] => false,
        [first, ..] => *first != b'0',
    }
}

/// Whether a text is `0`, or digits without a leading 0.
pub fn is_decimal(text: &[u8]) -> bool
    ensures { result ≡ is_decimal text.now }
{
    text == b"0".as_slice() || (are_digits(text) && has_no_leading_zero(text))
}

/// The number that digits write, where it is at most `most`.
#[tactic(auto, using(crate::proofs::Decimals::number_from_parse, crate::proofs::Decimals::digits_are_text))]
pub fn up_to(most: u64, digits: &[u8]) -> Option<u64>
    requires digits { list_all is_ascii_digit digits.now ≡ true }
    requires some { 0 < length digits.now }
    ensures value { result ≡ up_to most digits.now }
    ensures bound { IfSome result (λ n. n ≤ most) }
{
    match std::str::from_utf8(digits) {
        Ok(text) => match text.parse::<u64>() {
            Ok(number) => { if number <= most { Some(number) } else { None } }
            Err(_) => None,
        },
        Err(_) => None,
    }
}

/// The number that a text writes in decimal digits without superfluous zeros, where it is at most `most`.
#[tactic(auto, unfolding(crate::specs::Decimal::number_of))]
pub fn number_of(most: u64, text: &[u8]) -> Option<u64>
    ensures value { result ≡ number_of most text.now }
    ensures bound { IfSome result (λ n. n ≤ most) }
{
    if is_decimal(text) {
        up_to(most, text)
    } else {
        None
    }
}

/// The int that a text writes in decimal digits without superfluous zeros, behind a `-` where it is below 0.
pub fn int_of(text: &[u8]) -> Option<i32>
    ensures { result ≡ int_of text.now }
{
    match text {
        [] => None,
        [b'-', digits @ ..] => match number_of(0x8000_0000, digits) {
            Some(0) => None,
            Some(size) => Some((0 - size as i64) as i32),
            None => None,
        },
        [_, ..] => match number_of(0x7fff_ffff, text) {
            Some(number) => Some(number as i32),
            None => None,
        },
    }
}
