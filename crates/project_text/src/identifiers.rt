//! Identifiers and forms of Go.

use case_files::Subject;
use sq_base::Name;
use sq_shown::{constant_name, go_form, is_weak_in_go, model_identifier, package_name, pascal};
use std::alloc::{AllocError, Global};
use type_text::type_named;

/// Lines `column NAME`, `table SCHEMA.NAME`, `query NAME`, `folder PATH` and `type NAME`: each is
/// answered by the field, the model, the constant of the text, the package, or the two forms of the
/// type, never null and nullable.
#[derive(Drop)]
pub struct Identifiers;

fn model(alloc: Global, text: &str) -> Result<Name, AllocError> {
    let (schema, name) = text.split_once('.').unwrap_or(("public", text));
    model_identifier(alloc, &Name::new(alloc, schema)?, &Name::new(alloc, name)?)
}

fn constant(alloc: Global, query: &str) -> Result<Name, AllocError> {
    let name = constant_name(alloc, &Name::new(alloc, query)?)?;
    Ok(Name::from_string(String::from_utf8_lossy(alloc, name.as_slice())?))
}

fn forms(alloc: Global, text: &str) -> Result<Name, AllocError> {
    let Some(of) = type_named(text) else {
        return Name::new(alloc, "no type");
    };
    let never_null = go_form(alloc, of, false)?;
    let nullable = go_form(alloc, of, true)?;
    let weak = if is_weak_in_go(of) { ", weak" } else { "" };
    let (first, second) = (never_null.as_str(), nullable.as_str());
    Ok(Name::from_string(format!(in alloc; "{first}, {second}{weak}")?))
}

fn named(alloc: Global, kind: &str, text: &str) -> Result<Name, AllocError> {
    match kind {
        "column" => pascal(alloc, text.as_bytes()),
        "table" => model(alloc, text),
        "query" => constant(alloc, text),
        "folder" => package_name(alloc, text),
        "type" => forms(alloc, text),
        _ => Name::new(alloc, "no kind"),
    }
}

impl Subject for Identifiers {
    fn answer(&mut self, alloc: Global, input: &str) -> Result<String, AllocError> {
        let mut answer = String::new(alloc);
        for line in input.lines() {
            let (kind, text) = line.split_once(' ').unwrap_or((line, ""));
            let name = named(alloc, kind, text)?;
            answer.push_str(format!(in alloc; "{line}: {}\n", name.as_str())?.as_str())?;
        }
        Ok(answer)
    }
}
