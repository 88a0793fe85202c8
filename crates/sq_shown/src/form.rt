//! How a type is printed in Go.

ghost use Rattle.std.specs.Prelude.{◌≡◌, ◌++◌, IfOk, codes};
ghost use Rattle.sq_shown.specs.Forms.{nullable_scalar_form, printed_form, scalar_form, weak};

use sq_base::{Name, PgType, Scalar};
use std::alloc::{AllocError, Global};

// The form of a scalar type that is never null.
fn scalar_form(scalar: Scalar) -> &'static str
    ensures { result.now ≡ scalar_form scalar }
{
    match scalar {
        Scalar::SmallInt => "int16",
        Scalar::Integer => "int32",
        Scalar::BigInt => "int64",
        Scalar::Real => "float32",
        Scalar::DoublePrecision => "float64",
        Scalar::Boolean => "bool",
        Scalar::Bytea => "[]byte",
        Scalar::Date | Scalar::Time | Scalar::Timestamp | Scalar::TimestampTz => "time.Time",
        Scalar::Uuid => "uuid.UUID",
        Scalar::Json | Scalar::Jsonb => "json.RawMessage",
        Scalar::Numeric
        | Scalar::Text
        | Scalar::Varchar
        | Scalar::Character
        | Scalar::Interval
        | Scalar::Opaque(_) => "string",
        Scalar::Enum(_) | Scalar::Domain(_) | Scalar::Unknown => "",
    }
}

// The form of a scalar type that may be null.
fn nullable_scalar_form(scalar: Scalar) -> &'static str
    ensures { result.now ≡ nullable_scalar_form scalar }
{
    match scalar {
        Scalar::SmallInt => "sql.NullInt16",
        Scalar::Integer => "sql.NullInt32",
        Scalar::BigInt => "sql.NullInt64",
        Scalar::Real | Scalar::DoublePrecision => "sql.NullFloat64",
        Scalar::Boolean => "sql.NullBool",
        Scalar::Bytea => "[]byte",
        Scalar::Date | Scalar::Time | Scalar::Timestamp | Scalar::TimestampTz => "sql.NullTime",
        Scalar::Uuid => "uuid.NullUUID",
        Scalar::Json | Scalar::Jsonb => "pqtype.NullRawMessage",
        Scalar::Numeric
        | Scalar::Text
        | Scalar::Varchar
        | Scalar::Character
        | Scalar::Interval
        | Scalar::Opaque(_) => "sql.NullString",
        Scalar::Enum(_) | Scalar::Domain(_) | Scalar::Unknown => "",
    }
}

// The form of an array.
fn array_form(alloc: Global, element: Scalar) -> Result<Name, AllocError>
    ensures { IfOk result (λ name. name ≡ codes "[]" ++ scalar_form element) }
{
    let mut text = String::from_str(alloc, "[]")?;
    text.push_str(scalar_form(element))?;
    Ok(Name::from_string(text))
}

/// The form of a type in Go, never null or nullable.
pub fn go_form(alloc: Global, of: PgType, nullable: bool) -> Result<Name, AllocError>
    ensures { IfOk result (λ name. name ≡ printed_form of nullable) }
{
    if of.array {
        return array_form(alloc, of.scalar);
    }
    if nullable {
        return Name::new(alloc, nullable_scalar_form(of.scalar));
    }
    Name::new(alloc, scalar_form(of.scalar))
}

/// Whether a type's form in Go admits null although nothing there is nullable.
pub fn is_weak_in_go(of: PgType) -> bool
    ensures { result ≡ weak of }
{
    of.array || matches!(of.scalar, Scalar::Bytea | Scalar::Json | Scalar::Jsonb)
}
