//! The method of a :many query.

ghost use Rattle.std.specs.Prelude.{◌≡◌, ◌++◌, IfOk, OnOk};
ghost use Rattle.sq_shown.specs.Layout.{many, many_call, many_end, many_head, many_items, many_row, many_scan, targets};

use crate::line::{push_behind, push_framed, push_framed_twice, push_line, push_text};
use crate::row::push_targets;
use sq_base::List;
use sq_shown::{Shown, constant_name};
use std::alloc::{AllocError, Global};

/// Each row is put to the list, and after the last one the rows are closed.
const END: &str = "\t\t); err != nil {\n\
    \t\t\treturn nil, err\n\
    \t\t}\n\
    \t\titems = append(items, i)\n\
    \t}\n\
    \tif err := rows.Close(); err != nil {\n\
    \t\treturn nil, err\n\
    \t}\n\
    \tif err := rows.Err(); err != nil {\n\
    \t\treturn nil, err\n\
    \t}\n\
    \treturn items, nil\n\
    }\n";

// Appends the method's first line.
#[tactic(auto, unfolding(sq_shown::specs::Layout::many_head))]
fn push_head(out: &mut List<u8>, query: &[u8], row: &[u8]) -> Result<(), AllocError>
    ensures { OnOk result (out.new ≡ out.old ++ many_head query.now row.now) }
{
    push_framed_twice(
        out,
        "func (q *Queries) ",
        query,
        "(ctx context.Context) ([]",
        row,
        ", error) {",
    )
}

// Appends the call of the database with the constant of this name.
#[tactic(auto, unfolding(sq_shown::specs::Layout::many_call))]
fn push_call(out: &mut List<u8>, name: &[u8]) -> Result<(), AllocError>
    ensures { OnOk result (out.new ≡ out.old ++ many_call name.now) }
{
    push_framed(out, "\trows, err := q.db.QueryContext(ctx, ", name, ")")
}

// Appends what an error does, and the beginning of the list of rows.
#[tactic(auto, unfolding(sq_shown::specs::Layout::many_items))]
fn push_items(out: &mut List<u8>, row: &[u8]) -> Result<(), AllocError>
    ensures { OnOk result (out.new ≡ out.old ++ many_items row.now) }
{
    push_line(out, "\tif err != nil {")?;
    push_line(out, "\t\treturn nil, err")?;
    push_line(out, "\t}")?;
    push_line(out, "\tdefer rows.Close()")?;
    push_behind(out, "\tvar items []", row)
}

// Appends the beginning of the loop over the rows.
#[tactic(auto, unfolding(sq_shown::specs::Layout::many_row))]
fn push_row(out: &mut List<u8>, row: &[u8]) -> Result<(), AllocError>
    ensures { OnOk result (out.new ≡ out.old ++ many_row row.now) }
{
    push_behind(out, "\tfor rows.Next() {\n\t\tvar i ", row)
}

// Appends the beginning of the scan.
#[tactic(auto, unfolding(sq_shown::specs::Layout::many_scan))]
fn push_scan(out: &mut List<u8>) -> Result<(), AllocError>
    ensures { OnOk result (out.new ≡ out.old ++ many_scan) }
{
    push_line(out, "\t\tif err := rows.Scan(")
}

// Appends the end of the loop and of the method.
#[tactic(auto, unfolding(sq_shown::specs::Layout::many_end))]
fn push_end(out: &mut List<u8>) -> Result<(), AllocError>
    ensures { OnOk result (out.new ≡ out.old ++ many_end) }
{
    push_text(out, END)
}

/// The method that gives all rows.
#[tactic(auto, unfolding(sq_shown::specs::Layout::many))]
pub fn many(alloc: Global, query: &Shown, row: &[u8]) -> Result<List<u8>, AllocError>
    ensures { IfOk result (λ text. text ≡ many query.now.name row.now (targets query.now.columns)) }
{
    let name = constant_name(alloc, &query.name)?;
    let mut out = List::new(alloc);
    push_head(&mut out, query.name.as_bytes(), row)?;
    push_call(&mut out, name.as_slice())?;
    push_items(&mut out, row)?;
    push_row(&mut out, row)?;
    push_scan(&mut out)?;
    push_targets(&mut out, query.columns.as_slice())?;
    push_end(&mut out)?;
    Ok(out)
}
