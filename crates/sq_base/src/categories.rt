//! The categories of types and the preferred type of each.

ghost use Rattle.std.specs.Prelude.{◌≡◌};
ghost use Rattle.sq_base.specs.Types.{IsBase, category, is_base, preferred, scalar_category, scalar_preferred};

use crate::conversion::Category;
use crate::types::{CITEXT, PgType, Scalar};

// The category of a scalar type.
fn scalar_category(of: Scalar) -> Category
    ensures { result ≡ scalar_category of }
{
    match of {
        Scalar::SmallInt
        | Scalar::Integer
        | Scalar::BigInt
        | Scalar::Real
        | Scalar::DoublePrecision
        | Scalar::Numeric => Category::Numbers,
        Scalar::Boolean => Category::Booleans,
        Scalar::Text | Scalar::Varchar | Scalar::Character | Scalar::Opaque(CITEXT) => {
            Category::Strings
        }
        Scalar::Date | Scalar::Time | Scalar::Timestamp | Scalar::TimestampTz => {
            Category::DatesAndTimes
        }
        Scalar::Interval => Category::Timespans,
        Scalar::Enum(_) => Category::Enumerations,
        _ => Category::UserDefined,
    }
}

/// Whether a type is known and no domain.
pub fn is_base(of: PgType) -> bool
    ensures { result ≡ is_base of.scalar }
{
    !matches!(of.scalar, Scalar::Domain(_) | Scalar::Unknown)
}

/// The category of a type.
pub fn category(of: PgType) -> Category
    requires { IsBase of }
    ensures { result ≡ category of }
{
    if of.array {
        return Category::Arrays;
    }
    scalar_category(of.scalar)
}

/// Whether a type is the preferred one of its category.
pub fn preferred(of: PgType) -> bool
    requires { IsBase of }
    ensures { result ≡ preferred of }
{
    !of.array
        && matches!(
            of.scalar,
            Scalar::DoublePrecision
                | Scalar::Boolean
                | Scalar::Text
                | Scalar::TimestampTz
                | Scalar::Interval
        )
}
