use crate::{Output, Signature};
use sq_base::{List, Name};

/// A table of the catalogue, by its id, as the writers are told of it.
#[derive(Debug, Drop)]
pub struct ModelDecl {
    pub id: u32,
    pub schema: Name,
    pub name: Name,
    pub columns: List<Output>,
}

/// A query, and the table whose columns are exactly its own, where there is one.
#[derive(Debug, Drop)]
pub struct QuerySig {
    pub signature: Signature,
    pub model: Option<u32>,
}

/// The queries of one source file, one or more, with the name of the file.
#[derive(Debug, Drop)]
pub struct QueryFile {
    pub source: Name,
    pub queries: List<QuerySig>,
}
