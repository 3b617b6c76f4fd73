//! Numbers of fonts in units of the paragraph: those of all fonts in one size.
//!
//! A number is multiplied and rounded as HarfBuzz does it: by the size times 2^16 over the units
//! of the em square, cut to a whole number, and then by 2^-16, halves upwards.
ghost use Rattle.std.specs.Prelude.{◌≡◌, IfOk};
ghost use Rattle.text_lines.specs.Reach.{factor_of, scaled};

use crate::options::ParagraphError;

/// What the numbers of a font are multiplied by, in 2^-16ths.
#[derive(Clone, Copy)]
pub(crate) struct Scale {
    factor: u64,
}

impl Scale {
    /// The scale of a font whose em square has so many units, for a size.
    pub fn new(size: u32, units: u16) -> Scale
        ensures { result.factor ≡ factor_of size units }
    {
        if units == 0 {
            return Scale { factor: 0 };
        }
        Scale {
            factor: u64::from(size) * 65536 / u64::from(units),
        }
    }

    /// A number in units of the paragraph. Refuses with `Size` one that has more than 32 bits then.
    pub fn times(self, number: i32) -> Result<i32, ParagraphError>
        ensures { IfOk result (λ times. times ≡ scaled self.factor number) }
    {
        let Ok(factor) = i64::try_from(self.factor) else {
            return Err(ParagraphError::Size);
        };
        let Some(product) = i64::from(number).checked_mul(factor) else {
            return Err(ParagraphError::Size);
        };
        let Some(sum) = product.checked_add(32768) else {
            return Err(ParagraphError::Size);
        };
        match i32::try_from(sum >> 16) {
            Ok(times) => Ok(times),
            Err(_) => Err(ParagraphError::Size),
        }
    }
}
