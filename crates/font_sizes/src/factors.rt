//! What numbers of a font are multiplied by, so that its em square has a size.
ghost use Rattle.std.specs.Prelude.{◌≡◌};
ghost use Rattle.font_sizes.specs.Factors;

use std::num::{nearest_i32_to_f32, nearest_i64_to_f32, saturating_f32_to_i64};

/// What numbers along one axis of a font are multiplied by, in 65536ths.
#[derive(Clone, Copy, PartialEq, Eq, Debug)]
pub struct Factor {
    fixed: i64,
}

/// A number times a factor, in 65536ths, and half of one.
fn product(fixed: i64, number: i32) -> i128
    ensures { result ≡ Factors.product fixed number }
{
    i128::from(number) * i128::from(fixed) + 32768
}

/// A number times a factor, to the nearest whole number, halves upwards.
#[tactic(auto, unfolding(crate::specs::Factors::nearest), using(crate::proofs::SignedLemmas::kept_bits))]
fn nearest(fixed: i64, number: i32) -> i128
    ensures { result ≡ Factors.nearest fixed number }
{
    product(fixed, number).div_euclid(65536)
}

/// A number of 32 bits; 0 in place of a longer one.
#[tactic(auto, unfolding(crate::specs::Factors::if_short))]
fn if_short(n: i128) -> i32
    ensures { result ≡ Factors.if_short n }
{
    if n < -2_147_483_648 {
        return 0;
    }
    if 2_147_483_647 < n {
        return 0;
    }
    n as i32
}

impl Factor {
    /// The factor by which an em square of so many units has a size; a negative one mirrors the
    /// axis. The quotient is one of binary32, whose fraction of a 65536th is left out.
    #[tactic(auto, unfolding(crate::specs::Factors::quotient))]
    pub fn new(size: i32, units_per_em: u16) -> Factor
        ensures { result.fixed ≡ Factors.factor_of size units_per_em }
    {
        let units = i32::from(units_per_em);
        if size == units {
            return Factor { fixed: 65536 };
        }
        let wide = nearest_i64_to_f32(i64::from(size) * 65536);
        Factor {
            fixed: saturating_f32_to_i64(wide / nearest_i32_to_f32(units)),
        }
    }

    /// A number of the font at the size: to the nearest whole number, halves upwards. One that has
    /// more than 32 bits is 0.
    #[tactic(auto, using(crate::proofs::SignedLemmas::kept_bits))]
    pub fn times(&self, number: i32) -> i32
        ensures { result ≡ Factors.sized self.now.fixed number }
    {
        if_short(nearest(self.fixed, number))
    }
}
