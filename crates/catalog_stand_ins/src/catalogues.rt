//! The catalogue: its look-ups and its changes.

ghost use Rattle.std.specs.Prelude.{◌≡◌, ◌<◌, IfSome, MatchOption, None, Some, length};
ghost use Rattle.std.specs.Option.{option_copied};
ghost use Rattle.sq_catalog.specs.Catalogue.{table_named, placed_table, Steps};
ghost use Rattle.sq_catalog.specs.Columns.{place_of_column};
ghost use Rattle.sq_catalog.specs.Schemas.{has_schema};
ghost use Rattle.sq_catalog.specs.UserTypes.{type_named, base};

use sq_base::PgType;
use sq_catalog::{Catalogue, Change, ChangeFault, Key, Table};

pub fn has_schema(catalogue: &Catalogue, schema: &str) -> bool
    ensures { result ≡ has_schema catalogue.now schema.now }
{
    catalogue.has_schema(schema)
}

pub fn apply(catalogue: &mut Catalogue, change: Change) -> Result<(), ChangeFault>
    ensures { Steps catalogue.old change catalogue.new result }
{
    catalogue.apply(change)
}

pub fn table<'a>(catalogue: &'a Catalogue, schema: &str, name: &str) -> Option<&'a Table>
    ensures { option_copied result ≡ table_named catalogue.now schema.now name.now }
{
    catalogue.table(schema, name)
}

pub fn placed_table<'a>(
    catalogue: &'a Catalogue,
    schema: &str,
    name: &str,
) -> Option<(usize, &'a Table)>
    ensures { MatchOption result (placed_table catalogue.now schema.now name.now ≡ None) (λ r. placed_table catalogue.now schema.now name.now ≡ Some (r.0, r.1.now)) }
{
    catalogue.placed_table(schema, name)
}

pub fn type_named(catalogue: &Catalogue, schema: &str, name: &str) -> Option<PgType>
    ensures { result ≡ type_named catalogue.now schema.now name.now }
{
    catalogue.type_named(schema, name)
}

pub fn base(catalogue: &Catalogue, of: PgType) -> PgType
    ensures { result ≡ base catalogue.now of }
{
    catalogue.base(of)
}

pub fn column(table: &Table, name: &str) -> Option<usize>
    ensures place { result ≡ place_of_column table.now name.now }
    ensures within { IfSome result (λ at. at < length table.now.columns) }
{
    sq_catalog::column(table, name)
}

pub fn primary_key(table: &Table) -> Option<&Key>
    ensures { option_copied result ≡ table.now.key }
{
    sq_catalog::primary_key(table)
}
