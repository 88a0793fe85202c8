//! The types of number constants.

ghost use Rattle.std.specs.Prelude.{◌≡◌, ◌-◌, ◌^◌, min};
ghost use Rattle.std.specs.List.{list_all};
ghost use Rattle.sq_base.specs.Constants.{constant_type, is_digit, type_of_value, value};

use crate::types::{PgType, Scalar};

// Whether a text is of digits alone.
fn is_whole(text: &[u8]) -> bool
    ensures { result ≡ list_all is_digit text.now }
{
    text.iter().all(|byte| byte.is_ascii_digit())
}

// The number that digits say, or the greatest one where it is greater.
fn value(digits: &[u8]) -> u64
    ensures { result ≡ min (value digits.now) (2 ^ 64 - 1) }
{
    let mut value: u64 = 0;
    for &digit in digits {
        value = value
            .saturating_mul(10)
            .saturating_add(digit.saturating_sub(b'0') as u64);
    }
    value
}

/// The type of a number constant: a number without point and exponent has the first of integer,
/// bigint and numeric that holds it, and every other number is numeric.
pub fn constant_type(text: &[u8]) -> PgType
    ensures { result ≡ constant_type text.now }
{
    let scalar = if !is_whole(text) {
        Scalar::Numeric
    } else {
        match value(text) {
            0..=2147483647 => Scalar::Integer,
            2147483648..=9223372036854775807 => Scalar::BigInt,
            _ => Scalar::Numeric,
        }
    };
    PgType {
        scalar,
        array: false,
    }
}
