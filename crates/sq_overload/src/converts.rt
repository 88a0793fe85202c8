//! What is known of types.

ghost use Rattle.std.specs.Prelude.{◌≡◌};
ghost use Rattle.sq_base.specs.Casts.{is_same};
ghost use Rattle.sq_overload.specs.Converts.{converts, is_known, is_one_category, is_one_type};

use sq_base::{Cast, Category, PgType, Scalar, cast, is_base};

/// Whether a type is known.
pub fn is_known(of: PgType) -> bool
    ensures { result ≡ is_known of }
{
    is_base(of)
}

// Whether two scalar types are one.
fn is_one_scalar(of: Scalar, other: Scalar) -> bool
    ensures { result ≡ is_same of other }
{
    of == other
}

/// Whether two types are one.
pub fn is_one_type(of: PgType, other: PgType) -> bool
    ensures { result ≡ is_one_type of other }
{
    is_one_scalar(of.scalar, other.scalar) && of.array == other.array
}

/// Whether two categories are one.
pub fn is_one_category(of: Category, other: Category) -> bool
    ensures { result ≡ is_one_category of other }
{
    of == other
}

/// Whether a known type converts to another in every context.
pub fn converts(from: PgType, to: PgType) -> bool
    ensures { result ≡ converts from to }
{
    is_known(from) && is_known(to) && matches!(cast(from, to), Cast::Same | Cast::Implicit)
}
