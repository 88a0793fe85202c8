//! How much the program takes of each thing. What is more is refused.

/// The bytes of a file.
pub const MOST_FILE_BYTES: usize = 4_194_304;

/// The files of one key of a block.
pub const MOST_FILES: usize = 256;

/// The tokens of a statement that is read.
pub const MOST_TOKENS: usize = 16_384;

/// How deep brackets and CASE nest in a statement that is read.
pub const MOST_DEPTH: usize = 64;

/// The height of the tree of an expression or a query.
pub const MOST_HEIGHT: u32 = 256;

/// The bytes of a name (PostgreSQL 16 manual, section 4.1.1).
pub const MOST_NAME_BYTES: usize = 63;

/// The columns of a table (PostgreSQL 16 manual, appendix K).
pub const MOST_COLUMNS: usize = 1_600;

/// The output columns of a query (PostgreSQL 16 manual, appendix K).
pub const MOST_OUTPUTS: usize = 1_664;

/// The greatest number of a parameter.
pub const MOST_PARAMETERS: u32 = 4_096;

/// The queries of a block.
pub const MOST_QUERIES: usize = 4_096;

/// The bytes of a query's printed text.
pub const MOST_TEXT_BYTES: usize = 4_194_304;
