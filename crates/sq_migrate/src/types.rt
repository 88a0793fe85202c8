//! The types that statements name.

ghost use Rattle.std.specs.Prelude.{◌≡◌};
ghost use Rattle.sq_base.specs.Answers.{Gives, IsFaultOf};
ghost use Rattle.sq_base.specs.Refusals.{refused_naming};
ghost use Rattle.sq_base.specs.declared.code.Code.TheVariants.{UnknownType};
ghost use Rattle.sq_migrate.specs.Types as spec;

use crate::names::{is_one, scalar_named, serial_named};
use sq_base::{Code, Fault, PgType, Place, Refusal, Scalar};
use sq_catalog::Catalogue;
use sq_syntax::{Identifier, QualifiedName, TimeZone, TypeName, TypeWord};
use std::alloc::Global;

/// A type, and whether a sequence fills the column that has it.
#[derive(Clone, Copy, Debug, PartialEq, Eq)]
pub struct Typed {
    pub of: PgType,
    pub is_serial: bool,
}

fn scalar(is_serial: bool, of: Scalar) -> Typed
    ensures { result ≡ spec.scalar is_serial of }
{
    Typed {
        of: PgType {
            scalar: of,
            array: false,
        },
        is_serial,
    }
}

fn is_char(x: &Identifier) -> bool
    ensures { result ≡ spec.is_char x.now }
{
    x.is_quoted && x.name.as_str() == "char"
}

fn unknown(alloc: Global, place: Place, x: &Identifier) -> Fault
    ensures { IsFaultOf (refused_naming UnknownType place x.now.name) result }
{
    match Refusal::naming(alloc, Code::UnknownType, place, x.name.as_str()) {
        Ok(refusal) => Fault::Refused(refusal),
        Err(_) => Fault::Memory,
    }
}

fn serial_type(
    alloc: Global,
    in_column: bool,
    place: Place,
    x: &Identifier,
    of: Scalar,
) -> Result<Typed, Fault>
    ensures { Gives (spec.serial_type in_column place x.now of) result }
{
    if in_column {
        Ok(scalar(true, of))
    } else {
        Err(unknown(alloc, place, x))
    }
}

/// Refuses a schema that is not there.
pub fn known_schema(
    alloc: Global,
    catalogue: &Catalogue,
    place: Place,
    schema: &str,
) -> Result<(), Fault>
    ensures { Gives (spec.known_schema catalogue.now place schema.now) result }
{
    if catalogue.has_schema(schema) {
        return Ok(());
    }
    Err(Fault::Refused(Refusal::naming(alloc, Code::UnknownSchema, place, schema)?))
}

fn type_in(
    alloc: Global,
    catalogue: &Catalogue,
    place: Place,
    schema: &str,
    x: &Identifier,
) -> Result<Typed, Fault>
    ensures { Gives (spec.type_in catalogue.now place schema.now x.now) result }
{
    known_schema(alloc, catalogue, place, schema)?;
    match catalogue.type_named(schema, x.name.as_str()) {
        Some(of) => Ok(Typed {
            of,
            is_serial: false,
        }),
        None => Err(unknown(alloc, place, x)),
    }
}

fn serial_or_in(
    alloc: Global,
    catalogue: &Catalogue,
    in_column: bool,
    place: Place,
    schema: &str,
    x: &Identifier,
) -> Result<Typed, Fault>
    ensures { Gives (spec.serial_or_in catalogue.now in_column place schema.now x.now) result }
{
    match serial_named(x.name.as_str()) {
        Some(of) => serial_type(alloc, in_column, place, x, of),
        None => type_in(alloc, catalogue, place, schema, x),
    }
}

fn built_in_or_in(
    alloc: Global,
    catalogue: &Catalogue,
    in_column: bool,
    place: Place,
    schema: &str,
    x: &Identifier,
) -> Result<Typed, Fault>
    ensures { Gives (spec.built_in_or_in catalogue.now in_column place schema.now x.now) result }
{
    if is_char(x) {
        return Err(unknown(alloc, place, x));
    }
    match scalar_named(x.name.as_str()) {
        Some(of) => Ok(scalar(false, of)),
        None => serial_or_in(alloc, catalogue, in_column, place, schema, x),
    }
}

fn is_extension(name: &str) -> bool
    ensures { result ≡ spec.is_extension name.now }
{
    is_one(name, &["citext", "ltree", "hstore"])
}

fn holds_built_in(schema: &str, name: &str) -> bool
    ensures { result ≡ spec.holds_built_in schema.now name.now }
{
    schema == "pg_catalog" || (schema == "public" && is_extension(name))
}

fn type_of_schema(
    alloc: Global,
    catalogue: &Catalogue,
    schema: &Identifier,
    x: &Identifier,
) -> Result<Typed, Fault>
    ensures { Gives (spec.type_of_schema catalogue.now schema.now x.now) result }
{
    let home = schema.name.as_str();
    if holds_built_in(home, x.name.as_str()) {
        built_in_or_in(alloc, catalogue, false, schema.place, home, x)
    } else {
        type_in(alloc, catalogue, schema.place, home, x)
    }
}

fn named_type(
    alloc: Global,
    catalogue: &Catalogue,
    in_column: bool,
    x: &QualifiedName,
) -> Result<Typed, Fault>
    ensures { Gives (spec.named_type catalogue.now in_column x.now) result }
{
    match &x.schema {
        None => built_in_or_in(alloc, catalogue, in_column, x.name.place, "public", &x.name),
        Some(schema) => type_of_schema(alloc, catalogue, schema, &x.name),
    }
}

/// The place of a name: that of its first part.
pub fn place_of(x: &QualifiedName) -> Place
    ensures { result ≡ spec.place_of x.now }
{
    match &x.schema {
        None => x.name.place,
        Some(schema) => schema.place,
    }
}

fn zoned(zone: TimeZone, of: Scalar) -> Scalar
    ensures { result ≡ spec.zoned zone of }
{
    match (zone, of) {
        (TimeZone::With, Scalar::Timestamp) => Scalar::TimestampTz,
        _ => of,
    }
}

fn is_domain(of: Scalar) -> bool
    ensures { result ≡ spec.is_domain of }
{
    matches!(of, Scalar::Domain(_))
}

fn has_squares(x: &TypeName) -> bool
    ensures { result ≡ spec.has_squares x.now }
{
    0 < x.arrays.len()
}

fn completed(x: &TypeName, of: Typed) -> Typed
    ensures { result ≡ spec.completed x.now of }
{
    Typed {
        of: PgType {
            scalar: zoned(x.zone, of.of.scalar),
            array: has_squares(x),
        },
        is_serial: of.is_serial,
    }
}

fn arrayed(alloc: Global, x: &TypeName, name: &QualifiedName, of: Typed) -> Result<Typed, Fault>
    ensures { Gives (spec.arrayed x.now name.now of) result }
{
    if has_squares(x) && is_domain(of.of.scalar) {
        return Err(unknown(alloc, place_of(name), &name.name));
    }
    Ok(completed(x, of))
}

/// The type that is written (PostgreSQL manual, chapter 8), in a column or elsewhere: a built-in one,
/// or an enumeration or domain of the catalogue. Refuses an unknown type, a serial spelling outside
/// columns and an array of a domain (15), and an unknown schema (16), each at the name.
pub fn type_of(
    alloc: Global,
    catalogue: &Catalogue,
    in_column: bool,
    x: &TypeName,
) -> Result<Typed, Fault>
    ensures { Gives (spec.type_of catalogue.now in_column x.now) result }
{
    match &x.word {
        TypeWord::Named(name) => {
            let of = named_type(alloc, catalogue, in_column, name)?;
            arrayed(alloc, x, name, of)
        }
        TypeWord::DoublePrecision(_) => Ok(completed(x, scalar(false, Scalar::DoublePrecision))),
        TypeWord::CharacterVarying(_) => Ok(completed(x, scalar(false, Scalar::Varchar))),
    }
}
