//! Which subject a file of cases is put to.

use case_files::{Fault, Tally, tried};
use config_text::{Configurations, Folders, Paths, Words};
use project_text::{Identifiers, Layouts, Projects, Reading, Replays};
use std::alloc::Global;
use tree_text::{Changes, Expressions, Folded, Limits, Places, Queries, Schemas, Tokens};
use type_text::{Casts, CommonTypes, Constants, Resolution, Rows};

/// The run of a file, put to the subject that its name names.
pub fn tried_by_name(alloc: Global, file: &str, text: &str) -> Result<Tally, Fault> {
    match file.split(['-', '.']).next().unwrap_or("") {
        "casts" => tried(alloc, file, text, &mut Casts),
        "common" => tried(alloc, file, text, &mut CommonTypes),
        "configurations" => tried(alloc, file, text, &mut Configurations),
        "constants" => tried(alloc, file, text, &mut Constants),
        "folders" => tried(alloc, file, text, &mut Folders),
        "paths" => tried(alloc, file, text, &mut Paths),
        "resolution" => tried(alloc, file, text, &mut Resolution),
        "rows" => tried(alloc, file, text, &mut Rows),
        "words" => tried(alloc, file, text, &mut Words),
        "tokens" => tried(alloc, file, text, &mut Tokens::Kinds),
        "token_places" => tried(alloc, file, text, &mut Tokens::Places),
        "folded" => tried(alloc, file, text, &mut Folded),
        "expressions" => tried(alloc, file, text, &mut Expressions),
        "queries" => tried(alloc, file, text, &mut Queries),
        "changes" => tried(alloc, file, text, &mut Changes),
        "places" => tried(alloc, file, text, &mut Places),
        "schemas" => tried(alloc, file, text, &mut Schemas::Short),
        "schema_trees" => tried(alloc, file, text, &mut Schemas::Full),
        "limits" => tried(alloc, file, text, &mut Limits),
        "identifiers" => tried(alloc, file, text, &mut Identifiers),
        "layouts" => tried(alloc, file, text, &mut Layouts::new(alloc)),
        "projects" => tried(alloc, file, text, &mut Projects::new(alloc)),
        "reading" => tried(alloc, file, text, &mut Reading::new(alloc)),
        "replays" => tried(alloc, file, text, &mut Replays),
        _ => Err(Fault::NoSubject),
    }
}
