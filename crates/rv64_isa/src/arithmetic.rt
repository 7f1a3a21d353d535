//! What the operations give, each under the name of its instruction, on numbers of 64 bits.
ghost use Rattle.std.specs.Prelude.{◌≡◌, ◌<◌, ◌^◌, IsTrue, ◌↔◌};
ghost use Rattle.rv64_isa.specs.Arithmetic.{add, addw, and, div, divu, divuw, divw, high_product, is_less, low, mul, mulh, mulhsu, mulhu, mulw, or, rem, remu, remuw, remw, sign_extended, sll, sllw, slt, sltu, sra, sraw, srl, srlw, sub, subw, widened, word, xor};

// The low 32 bits with their sign.
fn word(x: u64) -> u64
    ensures { result ≡ word x }
{
    let x = x % 0x1_0000_0000;
    if x < 0x8000_0000 {
        x
    } else {
        x + 0xffff_ffff_0000_0000
    }
}

fn low(x: u64) -> u64
    ensures { result ≡ low x }
{
    x % 0x1_0000_0000
}

// 128 bits of the same sign.
fn wide(x: u64) -> u128
    ensures { result ≡ widened 64 128 x }
{
    if x < 0x8000_0000_0000_0000 {
        u128::from(x)
    } else {
        u128::from(x) + 0xffff_ffff_ffff_ffff_0000_0000_0000_0000
    }
}

fn high_product(x: u128, y: u128) -> u64
    ensures { result ≡ high_product x y }
{
    (x.wrapping_mul(y) / 0x1_0000_0000_0000_0000) as u64
}

/// Whether x is less than y, as numbers with sign.
pub fn is_less(x: u64, y: u64) -> bool
    ensures { result ≡ is_less x y }
{
    x.cast_signed() < y.cast_signed()
}

/// The sum; overflow is ignored.
pub fn add(x: u64, y: u64) -> u64
    ensures { result ≡ add x y }
{
    x.wrapping_add(y)
}

/// The difference; overflow is ignored.
pub fn sub(x: u64, y: u64) -> u64
    ensures { result ≡ sub x y }
{
    x.wrapping_sub(y)
}

/// 1 where x is less than y as numbers with sign, else 0.
pub fn slt(x: u64, y: u64) -> u64
    ensures { result ≡ slt x y }
{
    u64::from(is_less(x, y))
}

/// 1 where x is less than y, else 0.
pub fn sltu(x: u64, y: u64) -> u64
    ensures { result ≡ sltu x y }
{
    u64::from(x < y)
}

/// The bits in which x and y differ.
pub fn xor(x: u64, y: u64) -> u64
    ensures { result ≡ xor x y }
{
    x ^ y
}

/// The bits that x or y has.
pub fn or(x: u64, y: u64) -> u64
    ensures { result ≡ or x y }
{
    x | y
}

/// The bits that both x and y have.
pub fn and(x: u64, y: u64) -> u64
    ensures { result ≡ and x y }
{
    x & y
}

/// x shifted left by the low six bits of y.
pub fn sll(x: u64, y: u64) -> u64
    ensures { result ≡ sll x y }
{
    x << (y % 64) as u32
}

/// x shifted right by the low six bits of y, with zeros.
pub fn srl(x: u64, y: u64) -> u64
    ensures { result ≡ srl x y }
{
    x >> (y % 64) as u32
}

/// x shifted right by the low six bits of y, with copies of its sign.
pub fn sra(x: u64, y: u64) -> u64
    ensures { result ≡ sra x y }
{
    (x.cast_signed() >> (y % 64) as u32).cast_unsigned()
}

/// The low 64 bits of the product.
pub fn mul(x: u64, y: u64) -> u64
    ensures { result ≡ mul x y }
{
    x.wrapping_mul(y)
}

/// The high 64 bits of the product of two numbers with sign.
pub fn mulh(x: u64, y: u64) -> u64
    ensures { result ≡ mulh x y }
{
    high_product(wide(x), wide(y))
}

/// The high 64 bits of the product of x with sign and y without.
pub fn mulhsu(x: u64, y: u64) -> u64
    ensures { result ≡ mulhsu x y }
{
    high_product(wide(x), u128::from(y))
}

/// The high 64 bits of the product of two numbers without sign.
pub fn mulhu(x: u64, y: u64) -> u64
    ensures { result ≡ mulhu x y }
{
    high_product(u128::from(x), u128::from(y))
}

/// The quotient with sign, rounded towards 0; all ones where y is 0; x where it does not fit.
pub fn div(x: u64, y: u64) -> u64
    ensures { result ≡ div x y }
{
    if y == 0 {
        u64::MAX
    } else {
        x.cast_signed()
            .wrapping_div(y.cast_signed())
            .cast_unsigned()
    }
}

/// The quotient; all ones where y is 0.
pub fn divu(x: u64, y: u64) -> u64
    ensures { result ≡ divu x y }
{
    if y == 0 { u64::MAX } else { x / y }
}

/// The remainder with the sign of x; x where y is 0; 0 where the quotient does not fit.
pub fn rem(x: u64, y: u64) -> u64
    ensures { result ≡ rem x y }
{
    match y {
        0 => x,
        _ => x
            .cast_signed()
            .wrapping_rem(y.cast_signed())
            .cast_unsigned(),
    }
}

/// The remainder; x where y is 0.
pub fn remu(x: u64, y: u64) -> u64
    ensures { result ≡ remu x y }
{
    if y == 0 { x } else { x % y }
}

/// The low 32 bits of the sum, with their sign.
pub fn addw(x: u64, y: u64) -> u64
    ensures { result ≡ addw x y }
{
    word(add(x, y))
}

/// The low 32 bits of the difference, with their sign.
pub fn subw(x: u64, y: u64) -> u64
    ensures { result ≡ subw x y }
{
    word(sub(x, y))
}

/// The low 32 bits of x shifted left by the low five bits of y, with the sign of the result.
pub fn sllw(x: u64, y: u64) -> u64
    ensures { result ≡ sllw x y }
{
    word(sll(x, y % 32))
}

/// The low 32 bits of x shifted right by the low five bits of y, with the sign of the result.
pub fn srlw(x: u64, y: u64) -> u64
    ensures { result ≡ srlw x y }
{
    word(srl(low(x), y % 32))
}

/// The low 32 bits of x, as a number with sign, shifted right by the low five bits of y.
pub fn sraw(x: u64, y: u64) -> u64
    ensures { result ≡ sraw x y }
{
    word(sra(word(x), y % 32))
}

/// The low 32 bits of the product, with their sign.
pub fn mulw(x: u64, y: u64) -> u64
    ensures { result ≡ mulw x y }
{
    word(mul(x, y))
}

/// The quotient of the low 32 bits with sign, as `div` has it.
pub fn divw(x: u64, y: u64) -> u64
    ensures { result ≡ divw x y }
{
    word(div(word(x), word(y)))
}

/// The quotient of the low 32 bits, as `divu` has it, with the sign of its 32 bits.
pub fn divuw(x: u64, y: u64) -> u64
    ensures { result ≡ divuw x y }
{
    word(divu(low(x), low(y)))
}

/// The remainder of the low 32 bits with sign, as `rem` has it.
pub fn remw(x: u64, y: u64) -> u64
    ensures { result ≡ remw x y }
{
    word(rem(word(x), word(y)))
}

/// The remainder of the low 32 bits, as `remu` has it, with the sign of its 32 bits.
pub fn remuw(x: u64, y: u64) -> u64
    ensures { result ≡ remuw x y }
{
    word(remu(low(x), low(y)))
}
