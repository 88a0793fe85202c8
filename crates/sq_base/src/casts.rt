//! The casts between types.

ghost use Rattle.std.specs.Prelude.{◌≡◌};
ghost use Rattle.sq_base.specs.Types.{IsBase};
ghost use Rattle.sq_base.specs.Casts.{assignment, cast, explicit, implicit, is_one_of, is_same, scalar_cast, strings};

use crate::conversion::Cast;
use crate::types::{CIDR, CITEXT, INET, MONEY, PgType, Scalar};

// Whether two scalar types are one.
fn is_same(from: Scalar, to: Scalar) -> bool
    ensures { result ≡ is_same from to }
{
    from == to
}

// Whether a number converts to a scalar type in every context.
fn is_implicit(from: Scalar, to: Scalar) -> bool
    ensures { result ≡ is_one_of to (implicit from) }
{
    use Scalar::*;
    match from {
        SmallInt => matches!(to, Integer | BigInt | Real | DoublePrecision | Numeric),
        Integer => matches!(to, BigInt | Real | DoublePrecision | Numeric),
        BigInt => matches!(to, Real | DoublePrecision | Numeric),
        Numeric => matches!(to, Real | DoublePrecision),
        Real => matches!(to, DoublePrecision),
        Text => matches!(to, Varchar | Character),
        Varchar => matches!(to, Text | Character),
        Character => matches!(to, Text | Varchar),
        Date => matches!(to, Timestamp | TimestampTz),
        Timestamp => matches!(to, TimestampTz),
        Time => matches!(to, Interval),
        Opaque(CIDR) => matches!(to, Opaque(INET)),
        Opaque(CITEXT) => matches!(to, Text | Varchar),
        _ => false,
    }
}

// Whether a scalar type converts to another that is no string where it is assigned to a column.
fn is_assignment(from: Scalar, to: Scalar) -> bool
    ensures { result ≡ is_one_of to (assignment from) }
{
    use Scalar::*;
    match from {
        BigInt => matches!(to, Integer | SmallInt | Opaque(MONEY)),
        Integer => matches!(to, SmallInt | Opaque(MONEY)),
        Real => matches!(to, SmallInt | Integer | BigInt | Numeric),
        DoublePrecision => matches!(to, SmallInt | Integer | BigInt | Numeric | Real),
        Numeric => matches!(to, SmallInt | Integer | BigInt | Opaque(MONEY)),
        Timestamp => matches!(to, Date | Time),
        TimestampTz => matches!(to, Date | Time | Timestamp),
        Interval => matches!(to, Time),
        Json => matches!(to, Jsonb),
        Jsonb => matches!(to, Json),
        Opaque(INET) => matches!(to, Opaque(CIDR)),
        Opaque(MONEY) => matches!(to, Numeric),
        _ => false,
    }
}

// Whether a scalar type is a string.
fn is_string(of: Scalar) -> bool
    ensures { result ≡ is_one_of of strings }
{
    matches!(
        of,
        Scalar::Text | Scalar::Varchar | Scalar::Character | Scalar::Opaque(CITEXT)
    )
}

// Whether a scalar type that is no string converts to another by an explicit cast.
fn is_explicit(from: Scalar, to: Scalar) -> bool
    ensures { result ≡ is_one_of to (explicit from) }
{
    use Scalar::*;
    match from {
        Integer => matches!(to, Boolean),
        Boolean => matches!(to, Integer),
        Jsonb => matches!(
            to,
            Boolean | SmallInt | Integer | BigInt | Real | DoublePrecision | Numeric
        ),
        _ => false,
    }
}

// How a scalar type converts to another.
fn scalar_cast(from: Scalar, to: Scalar) -> Cast
    ensures { result ≡ scalar_cast from to }
{
    if is_same(from, to) {
        Cast::Same
    } else if is_implicit(from, to) {
        Cast::Implicit
    } else if is_assignment(from, to) || is_string(to) {
        Cast::Assignment
    } else if is_explicit(from, to) || is_string(from) {
        Cast::Explicit
    } else {
        Cast::Nothing
    }
}

/// How a type converts to another: by the strongest cast that there is.
pub fn cast(from: PgType, to: PgType) -> Cast
    requires from { IsBase from }
    requires to { IsBase to }
    ensures { result ≡ cast from to }
{
    match (from.array, to.array) {
        (true, false) if is_string(to.scalar) => Cast::Assignment,
        (false, true) if is_string(from.scalar) => Cast::Explicit,
        (true, false) | (false, true) => Cast::Nothing,
        (true, true) | (false, false) => scalar_cast(from.scalar, to.scalar),
    }
}
