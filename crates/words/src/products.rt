//! Multiplication and division.

ghost use Rattle.std.specs.Prelude.{◌≡◌, ◌≢◌, ◌*ℤ◌, cond, Some, None, FitsSigned, int_div, int_rem};
ghost use Rattle.std.proofs.Common.{of_z};
ghost use Rattle.std.specs.Int.{w32, w64};
ghost use Rattle.words.specs.Sums.{out_of_range};
ghost use Rattle.words.specs.Products.{pair, product, product_high, product_low, divided};

/// The product of two signed numbers.
fn times(x: i32, y: i32) -> i64
    ensures { result ≡ x *ℤ y }
{
    i64::from(x) * i64::from(y)
}

/// The 64 bits of the signed product.
#[tactic(auto, unfolding(crate::specs::Products::product))]
fn product_bits(x: u32, y: u32) -> u64
    ensures { result ≡ product x y }
{
    times(x.cast_signed(), y.cast_signed()).cast_unsigned()
}

/// The signed product of two fullwords: its high fullword and its low one.
#[tactic(auto, unfolding(crate::specs::Products::product_high, crate::specs::Products::product_low))]
pub fn product(x: u32, y: u32) -> (u32, u32)
    ensures high { result.0 ≡ product_high x y }
    ensures low { result.1 ≡ product_low x y }
{
    let bits = product_bits(x, y);
    ((bits / 0x1_0000_0000) as u32, (bits % 0x1_0000_0000) as u32)
}

/// The signed number in a pair of fullwords.
fn joined(hi: u32, lo: u32) -> i64
    ensures { result ≡ pair hi lo }
{
    (u64::from(hi) * 0x1_0000_0000 + u64::from(lo)).cast_signed()
}

/// A quotient, if a fullword holds it.
fn held(q: i64) -> Option<u32>
    ensures { result ≡ cond (out_of_range q) None (Some (of_z w32 q)) }
{
    i32::try_from(q).ok().map(i32::cast_unsigned)
}

/// What remains of a division.
fn rest(n: i64, d: i32) -> i32
    requires { (of_z w32 d ≢ 0) × (FitsSigned w64 (int_div n d)) }
    ensures { result ≡ int_rem n d }
{
    (n % i64::from(d)) as i32
}

/// The quotient of a signed pair by a fullword, toward zero, and the remainder with the dividend's sign. Refused by zero,
/// and where a fullword does not hold the quotient.
#[tactic(auto, unfolding(crate::specs::Products::divided, crate::specs::Products::quotient, crate::specs::Products::remainder))]
pub fn divided(hi: u32, lo: u32, by: u32) -> Option<(u32, u32)>
    ensures { result ≡ divided hi lo by }
{
    let n = joined(hi, lo);
    let d = by.cast_signed();
    let quotient = held(n.checked_div(i64::from(d))?)?;
    Some((quotient, rest(n, d).cast_unsigned()))
}
