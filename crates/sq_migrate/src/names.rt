//! The built-in types by their names.

ghost use Rattle.std.specs.Prelude.{◌≡◌, map};
ghost use Rattle.sq_migrate.specs.Types.{is_one, number_named, opaque_named, scalar_named, serial_named, text_named, time_named};

use sq_base::{CIDR, CITEXT, HSTORE, INET, LTREE, MACADDR, MONEY, POINT, Scalar, TSVECTOR, XML};

/// Whether a name is one of these words.
pub fn is_one(name: &str, words: &[&str]) -> bool
    ensures { result ≡ is_one name.now (map (λ word. word.now) words.now) }
{
    for word in words {
        if *word == name {
            return true;
        }
    }
    false
}

#[tactic(auto, unfolding(crate::specs::Types::number_named))]
fn number_named(name: &str) -> Option<Scalar>
    ensures { result ≡ number_named name.now }
{
    if is_one(name, &["smallint", "int2"]) {
        return Some(Scalar::SmallInt);
    }
    if is_one(name, &["integer", "int4", "int"]) {
        return Some(Scalar::Integer);
    }
    if is_one(name, &["bigint", "int8"]) {
        return Some(Scalar::BigInt);
    }
    if is_one(name, &["real", "float4"]) {
        return Some(Scalar::Real);
    }
    if is_one(name, &["float8", "float"]) {
        return Some(Scalar::DoublePrecision);
    }
    if is_one(name, &["numeric", "decimal", "dec"]) {
        return Some(Scalar::Numeric);
    }
    None
}

#[tactic(auto, unfolding(crate::specs::Types::time_named))]
fn time_named(name: &str) -> Option<Scalar>
    ensures { result ≡ time_named name.now }
{
    match name {
        "date" => Some(Scalar::Date),
        "time" => Some(Scalar::Time),
        "timestamp" => Some(Scalar::Timestamp),
        "timestamptz" => Some(Scalar::TimestampTz),
        "interval" => Some(Scalar::Interval),
        _ => None,
    }
}

#[tactic(auto, unfolding(crate::specs::Types::text_named))]
fn text_named(name: &str) -> Option<Scalar>
    ensures { result ≡ text_named name.now }
{
    if is_one(name, &["boolean", "bool"]) {
        return Some(Scalar::Boolean);
    }
    if name == "text" {
        return Some(Scalar::Text);
    }
    if name == "varchar" {
        return Some(Scalar::Varchar);
    }
    if is_one(name, &["character", "bpchar", "char"]) {
        return Some(Scalar::Character);
    }
    if name == "bytea" {
        return Some(Scalar::Bytea);
    }
    if name == "uuid" {
        return Some(Scalar::Uuid);
    }
    if name == "json" {
        return Some(Scalar::Json);
    }
    if name == "jsonb" {
        return Some(Scalar::Jsonb);
    }
    None
}

#[tactic(auto, unfolding(crate::specs::Types::opaque_named))]
fn opaque_named(name: &str) -> Option<Scalar>
    ensures { result ≡ opaque_named name.now }
{
    match name {
        "inet" => Some(Scalar::Opaque(INET)),
        "cidr" => Some(Scalar::Opaque(CIDR)),
        "macaddr" => Some(Scalar::Opaque(MACADDR)),
        "citext" => Some(Scalar::Opaque(CITEXT)),
        "xml" => Some(Scalar::Opaque(XML)),
        "money" => Some(Scalar::Opaque(MONEY)),
        "point" => Some(Scalar::Opaque(POINT)),
        "tsvector" => Some(Scalar::Opaque(TSVECTOR)),
        "ltree" => Some(Scalar::Opaque(LTREE)),
        "hstore" => Some(Scalar::Opaque(HSTORE)),
        _ => None,
    }
}

/// The built-in type of this name in one word (PostgreSQL manual, chapter 8).
#[tactic(auto, unfolding(crate::specs::Types::scalar_named))]
pub fn scalar_named(name: &str) -> Option<Scalar>
    ensures { result ≡ scalar_named name.now }
{
    if let Some(of) = number_named(name) {
        return Some(of);
    }
    if let Some(of) = time_named(name) {
        return Some(of);
    }
    if let Some(of) = text_named(name) {
        return Some(of);
    }
    opaque_named(name)
}

/// The type of a column that a sequence fills (PostgreSQL manual, section 8.1.4).
#[tactic(auto, unfolding(crate::specs::Types::serial_named))]
pub fn serial_named(name: &str) -> Option<Scalar>
    ensures { result ≡ serial_named name.now }
{
    if is_one(name, &["smallserial", "serial2"]) {
        return Some(Scalar::SmallInt);
    }
    if is_one(name, &["serial", "serial4"]) {
        return Some(Scalar::Integer);
    }
    if is_one(name, &["bigserial", "serial8"]) {
        return Some(Scalar::BigInt);
    }
    None
}
