//! The names of types, as refusals print them.

ghost use Rattle.std.specs.Prelude.{◌≡◌, ◌++◌, IfOk, OnOk, slice_get, string_bytes};
ghost use Rattle.std.specs.Option.{option_map};
ghost use Rattle.sq_catalog.specs.TypeWords.{built_in_word, enum_word, enum_word_or_none, opaque_words, plain_word, scalar_word, type_word, word_or_none};

use crate::{Catalogue, EnumType};
use sq_base::{
    CIDR, CITEXT, HSTORE, INET, LTREE, MACADDR, MONEY, Name, POINT, PgType, Scalar, TSVECTOR, XML,
};
use std::alloc::{AllocError, Global};

// The name of a type of which nothing else is known, by its place in their list.
fn opaque_word(place: u8) -> &'static str
    ensures { result.now ≡ word_or_none (slice_get opaque_words place) }
{
    match place {
        INET => "inet",
        CIDR => "cidr",
        MACADDR => "macaddr",
        CITEXT => "citext",
        XML => "xml",
        MONEY => "money",
        POINT => "point",
        TSVECTOR => "tsvector",
        LTREE => "ltree",
        HSTORE => "hstore",
        _ => "",
    }
}

// The name of a built-in type.
fn built_in_word(of: Scalar) -> &'static str
    ensures { result.now ≡ built_in_word of }
{
    match of {
        Scalar::SmallInt => "smallint",
        Scalar::Integer => "integer",
        Scalar::BigInt => "bigint",
        Scalar::Real => "real",
        Scalar::DoublePrecision => "double precision",
        Scalar::Numeric => "numeric",
        Scalar::Boolean => "boolean",
        Scalar::Text => "text",
        Scalar::Varchar => "varchar",
        Scalar::Character => "character",
        Scalar::Bytea => "bytea",
        Scalar::Date => "date",
        Scalar::Time => "time",
        Scalar::Timestamp => "timestamp",
        Scalar::TimestampTz => "timestamptz",
        Scalar::Interval => "interval",
        Scalar::Uuid => "uuid",
        Scalar::Json => "json",
        Scalar::Jsonb => "jsonb",
        Scalar::Opaque(place) => opaque_word(place),
        Scalar::Enum(_) | Scalar::Domain(_) => "",
        Scalar::Unknown => "unknown",
    }
}

// Adds the name of an enumeration, where there is one.
fn add_enum(text: &mut String, of: Option<&EnumType>) -> Result<(), AllocError>
    ensures { OnOk result (string_bytes text.new ≡ string_bytes text.old ++ enum_word_or_none (option_map (λ x. x.now) of.entry)) }
{
    if let Some(of) = of {
        if of.schema.as_str() != "public" {
            text.push_str(of.schema.as_str())?;
            text.push_str(".")?;
        }
        text.push_str(of.name.as_str())?;
    }
    Ok(())
}

// Adds the name of a type that is no array.
fn add_scalar(text: &mut String, catalogue: &Catalogue, of: Scalar) -> Result<(), AllocError>
    ensures { OnOk result (string_bytes text.new ≡ string_bytes text.old ++ scalar_word catalogue.now of) }
{
    match of {
        Scalar::Enum(id) => add_enum(text, catalogue.enum_of(id)),
        of => text.push_str(built_in_word(of)),
    }
}

// Adds the name of a type that is no domain.
#[tactic(auto, unfolding(crate::specs::TypeWords::plain_word))]
fn add_type(text: &mut String, catalogue: &Catalogue, of: PgType) -> Result<(), AllocError>
    ensures { OnOk result (string_bytes text.new ≡ string_bytes text.old ++ plain_word catalogue.now of) }
{
    add_scalar(text, catalogue, of.scalar)?;
    if of.array {
        text.push_str("[]")?;
    }
    Ok(())
}

impl Catalogue {
    /// The name of a type, as refusals print it (PostgreSQL manual, chapter 8). A domain has the name of
    /// its base type, an enumeration outside the schema `public` that of its schema before its own, an
    /// array square brackets behind it, and what has no type is `unknown`.
    pub fn type_word(&self, alloc: Global, of: PgType) -> Result<Name, AllocError>
        ensures { IfOk result (λ word. word ≡ type_word self.now of) }
    {
        let mut text = String::new(alloc);
        add_type(&mut text, self, self.base(of))?;
        Ok(Name::from_string(text))
    }
}
