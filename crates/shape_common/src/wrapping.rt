//! Sums, differences and products modulo 2^32.
//!
//! Clauses of public calls say by which of these positions are made; `specs/Wrapping.antt` says
//! that a sum is the exact one if it fits.
ghost use Rattle.std.specs.Prelude.{◌≡◌, ℤ, pos, ◌<ℤ◌, int_div};
ghost use Rattle.shape_common.specs.Wrapping.{◌+ʷ◌, ◌-ʷ◌, ◌*ʷ◌, neg_w};

/// The sum modulo 2^32.
pub fn sum(a: i32, b: i32) -> i32
    ensures { result ≡ a +ʷ b }
{
    a.wrapping_add(b)
}

/// The difference modulo 2^32.
pub fn difference(a: i32, b: i32) -> i32
    ensures { result ≡ a -ʷ b }
{
    a.wrapping_sub(b)
}

/// The product modulo 2^32.
pub fn product(a: i32, b: i32) -> i32
    ensures { result ≡ a *ʷ b }
{
    a.wrapping_mul(b)
}

/// The negative modulo 2^32.
pub fn negative(a: i32) -> i32
    ensures { result ≡ neg_w a }
{
    a.wrapping_neg()
}

/// The quotient by a positive number, towards zero.
pub fn quotient(a: i32, n: i32) -> i32
    requires { pos 0 <ℤ n }
    ensures { result ≡ int_div a n }
{
    a / n
}

/// Half of a number, towards zero.
pub fn half(a: i32) -> i32
    ensures { result ≡ int_div a (pos 2) }
{
    a / 2
}
