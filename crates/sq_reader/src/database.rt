ghost use Rattle.std.specs.Prelude.{◌≡◌, ◌∷◌, [], Ok, Some, None, IfOk};
ghost use Rattle.sq_reader.specs.Gives.{Halts};
ghost use Rattle.sq_reader.specs.Items;

use crate::groups::{is_imported, spot_of};
use crate::items::{Fixed, Halt, Item, Meaning, Source, Space};
use sq_base::{List, Name};
use std::alloc::{AllocError, Global};

/// The text of a declaration of db.go.
fn fixed_text(fixed: Fixed) -> &'static [u8]
    ensures { result.now ≡ Items.fixed_text fixed }
{
    match fixed {
        Fixed::Interface =>
            b"\ntype DBTX interface {\n\tExecContext(context.Context, string, ...interface{}) (sql.Result, error)\n\tPrepareContext(context.Context, string) (*sql.Stmt, error)\n\tQueryContext(context.Context, string, ...interface{}) (*sql.Rows, error)\n\tQueryRowContext(context.Context, string, ...interface{}) *sql.Row\n}\n",
        Fixed::New => b"\nfunc New(db DBTX) *Queries {\n\treturn &Queries{db: db}\n}\n",
        Fixed::Queries => b"\ntype Queries struct {\n\tdb DBTX\n}\n",
        Fixed::WithTx =>
            b"\nfunc (q *Queries) WithTx(tx *sql.Tx) *Queries {\n\treturn &Queries{db: tx}\n}\n",
    }
}

/// The name of a declaration of db.go.
fn fixed_name(fixed: Fixed) -> &'static str
    ensures { result.now ≡ Items.fixed_name fixed }
{
    match fixed {
        Fixed::Interface => "DBTX",
        Fixed::New => "New",
        Fixed::Queries => "Queries",
        Fixed::WithTx => "WithTx",
    }
}

/// The name space of a declaration of db.go.
fn fixed_space(fixed: Fixed) -> Space
    ensures { result ≡ Items.fixed_space fixed }
{
    match fixed {
        Fixed::WithTx => Space::Methods,
        Fixed::Interface | Fixed::New | Fixed::Queries => Space::Package,
    }
}

/// Whether the packages that a declaration of db.go uses are imported.
fn fixed_stands(imports: &List<List<u8>>, fixed: Fixed) -> bool
    ensures { result ≡ Items.fixed_stands imports.now fixed }
{
    match fixed {
        Fixed::Interface => is_imported(imports, b"context") && is_imported(imports, b"sql"),
        Fixed::New | Fixed::Queries => true,
        Fixed::WithTx => is_imported(imports, b"sql"),
    }
}

/// A declaration of db.go, which has to stand here.
fn fixed_of<'a>(
    alloc: Global,
    fixed: Fixed,
    source: &Source,
    text: &'a [u8],
) -> Result<(Item, &'a [u8]), Halt>
    ensures { Halts (λ x. (x.0, x.1.now)) result (Items.fixed_at fixed source.now text.now) }
{
    let spot = spot_of(source.file, text);
    let Some(rest) = text.strip_prefix(fixed_text(fixed)) else {
        return Err(Halt::At(spot));
    };
    let item = Item {
        spot,
        space: fixed_space(fixed),
        name: Name::new(alloc, fixed_name(fixed))?,
        declared: fixed_stands(&source.imports, fixed),
        meaning: Meaning::Plain,
    };
    Ok((item, rest))
}

/// The four declarations of db.go, and no more.
#[tactic(auto, unfolding(crate::specs::Items::database_items))]
pub(crate) fn database_of(alloc: Global, source: &Source, text: &[u8]) -> Result<List<Item>, Halt>
    ensures { Halts (λ items. items) result (Items.database_items source.now text.now) }
{
    let (interface, rest) = fixed_of(alloc, Fixed::Interface, source, text)?;
    let (new, rest) = fixed_of(alloc, Fixed::New, source, rest)?;
    let (queries, rest) = fixed_of(alloc, Fixed::Queries, source, rest)?;
    let (with_tx, rest) = fixed_of(alloc, Fixed::WithTx, source, rest)?;
    if !rest.is_empty() {
        return Err(Halt::At(spot_of(source.file, rest)));
    }
    let mut items = List::new(alloc);
    items.push(interface)?;
    items.push(new)?;
    items.push(queries)?;
    items.push(with_tx)?;
    Ok(items)
}
