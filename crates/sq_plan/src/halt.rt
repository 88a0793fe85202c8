use sq_base::{File, List, Name, Refusal};

/// What a refusal's line says of its place in the file.
#[derive(Clone, Copy, Debug, PartialEq, Eq)]
pub enum Spot {
    /// Nothing: the file is refused as a whole.
    Whole,
    /// The line.
    Line,
    /// The line and the column.
    Placed,
}

/// A refusal, with the path of the file that it speaks of.
#[derive(Debug, Drop)]
pub struct Finding {
    pub path: Name,
    pub spot: Spot,
    pub refusal: Refusal,
}

/// Why a run ends before any file is put.
#[derive(Debug, Drop)]
pub enum Halt {
    /// The project is refused for these reasons, in the order in which they are printed.
    Refused(List<Finding>),
    /// A call of the tree found nothing at this path.
    Missing(Name),
    /// A call of the tree failed at this path.
    Failed(Name),
    /// Memory was wanting.
    Memory,
}

/// How a run ends, before it puts and prints anything.
#[derive(Debug, Drop)]
pub enum Ending {
    /// The words are no command.
    Usage,
    /// They are one, and it comes to files that are to be put, or halts.
    Judged(Result<List<File>, Halt>),
}
