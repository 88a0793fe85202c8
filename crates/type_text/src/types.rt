//! Types by the names that PostgreSQL gives them, read and printed.

use sq_base::{
    CIDR, CITEXT, HSTORE, INET, LTREE, MACADDR, MONEY, POINT, PgType, Scalar, TSVECTOR, XML,
};
use std::alloc::{AllocError, Global};

/// The scalar types with their names, and two enumerations and a domain of the cases' own.
const NAMES: [(&str, Scalar); 33] = [
    ("smallint", Scalar::SmallInt),
    ("integer", Scalar::Integer),
    ("bigint", Scalar::BigInt),
    ("real", Scalar::Real),
    ("double precision", Scalar::DoublePrecision),
    ("numeric", Scalar::Numeric),
    ("boolean", Scalar::Boolean),
    ("text", Scalar::Text),
    ("varchar", Scalar::Varchar),
    ("character", Scalar::Character),
    ("bytea", Scalar::Bytea),
    ("date", Scalar::Date),
    ("time", Scalar::Time),
    ("timestamp", Scalar::Timestamp),
    ("timestamptz", Scalar::TimestampTz),
    ("interval", Scalar::Interval),
    ("uuid", Scalar::Uuid),
    ("json", Scalar::Json),
    ("jsonb", Scalar::Jsonb),
    ("inet", Scalar::Opaque(INET)),
    ("cidr", Scalar::Opaque(CIDR)),
    ("macaddr", Scalar::Opaque(MACADDR)),
    ("citext", Scalar::Opaque(CITEXT)),
    ("xml", Scalar::Opaque(XML)),
    ("money", Scalar::Opaque(MONEY)),
    ("point", Scalar::Opaque(POINT)),
    ("tsvector", Scalar::Opaque(TSVECTOR)),
    ("ltree", Scalar::Opaque(LTREE)),
    ("hstore", Scalar::Opaque(HSTORE)),
    ("mood", Scalar::Enum(1)),
    ("colour", Scalar::Enum(2)),
    ("email", Scalar::Domain(7)),
    ("unknown", Scalar::Unknown),
];

/// The type with a name, of which `[]` makes an array.
pub fn type_named(text: &str) -> Option<PgType> {
    let element = text.strip_suffix("[]");
    let array = element.is_some();
    let name = element.unwrap_or(text);
    for (known, scalar) in NAMES {
        if known == name {
            return Some(PgType { scalar, array });
        }
    }
    None
}

/// Writes the name of a type.
pub fn show_type(text: &mut String, of: PgType) -> Result<(), AllocError> {
    for (name, scalar) in NAMES {
        if scalar == of.scalar {
            text.push_str(name)?;
            if of.array {
                text.push_str("[]")?;
            }
            return Ok(());
        }
    }
    text.push_str("a type without a name")
}

/// The types of a list, whose names are apart by commas, or None where one of them has no such name.
pub fn types_named(alloc: Global, list: &str) -> Result<Option<Vec<PgType>>, AllocError> {
    let mut types = Vec::new(alloc);
    if list.is_empty() {
        return Ok(Some(types));
    }
    for name in list.split(", ") {
        let Some(of) = type_named(name) else {
            return Ok(None);
        };
        types.push(of)?;
    }
    Ok(Some(types))
}
