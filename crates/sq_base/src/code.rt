ghost use Rattle.std.specs.Prelude.{◌≡◌};
ghost use Rattle.sq_base.specs.Refusals;

/// Why something is refused, as a kind: it has a number and a word, which stand in its line.
#[derive(Clone, Copy, Debug, PartialEq, Eq)]
pub enum Code {
    /// A quoted form or a block comment has no end.
    Unterminated,
    /// No token begins here.
    BadByte,
    /// The file is not UTF-8.
    NotUtf8,
    /// A statement has too many tokens.
    TooLong,
    /// Brackets and CASE nest too deep.
    TooNested,
    /// The tokens spell no tree.
    Syntax,
    /// An expression is too high.
    TooDeep,
    /// A file has too many bytes.
    FileTooLong,
    /// A key of a block has too many files.
    TooManyFiles,
    /// There is no table and no query of WITH of this name.
    UnknownTable,
    /// There is no column of this name.
    UnknownColumn,
    /// Several columns have this name.
    Ambiguous,
    /// Two ranges of one FROM have this name.
    DuplicateAlias,
    /// The name is that of a range, not of a column.
    WholeRow,
    /// There is no type of this name.
    UnknownType,
    /// There is no schema of this name.
    UnknownSchema,
    /// No operator or function takes these types.
    NoCandidate,
    /// Several operators or functions take these types equally well.
    Several,
    /// There is no function of this name.
    UnknownFunction,
    /// There is no cast between these types.
    NoCast,
    /// These types have no common type.
    NoCommon,
    /// An array is wanted.
    NotArray,
    /// A condition is wanted.
    NotBoolean,
    /// A value of this type is not assigned to a column of that one.
    NoAssignment,
    /// The arguments give two types where one is wanted.
    Polymorphic,
    /// A column outside of aggregates is not grouped.
    Ungrouped,
    /// An aggregate does not stand here.
    AggregateHere,
    /// An aggregate stands within an aggregate.
    NestedAggregate,
    /// An aggregate has only columns of outer queries.
    OuterAggregate,
    /// Two numbers of columns differ.
    ColumnCount,
    /// A position of ORDER BY or GROUP BY is none of the outputs.
    BadPosition,
    /// A column is set twice.
    TwiceAssigned,
    /// A query has too many outputs.
    TooManyOutputs,
    /// A parameter has no type.
    Undetermined,
    /// A parameter has two types.
    Conflict,
    /// Numbered and named parameters stand in one statement.
    Mixed,
    /// A slice stands elsewhere than alone in an IN list.
    SliceUse,
    /// The number of a parameter is too large.
    TooManyParams,
    /// A statement has no annotation with a good name.
    BadName,
    /// The command of an annotation is none.
    BadCommand,
    /// An earlier query of the block has this name.
    DuplicateName,
    /// A query that gives rows has no columns.
    NoColumns,
    /// A block has too many queries.
    TooManyQueries,
    /// The printed text of a query is too long.
    TextTooLong,
    /// The configuration is no JSON.
    BadJson,
    /// A key of the configuration is unknown, missing or wrong.
    BadKey,
    /// There is no writer of this name.
    NoWriter,
    /// Two outputs lie in one folder.
    SameOut,
    /// The name is taken.
    Exists,
    /// The named thing is not there.
    Missing,
    /// What is dropped is used.
    InUse,
    /// The column is part of the primary key.
    InPrimaryKey,
    /// A table has too many columns.
    TooManyColumns,
    /// Two names become one identifier.
    Clash,
    /// An option of an output is unknown or wrong.
    BadOption,
    /// A line of a written file is none that is written.
    NotDeclaration,
    /// The form is not built yet.
    NotYet,
}

impl Code {
    /// Its number, from 1 to 99.
    pub fn number(self) -> u8
        ensures { result ≡ Refusals.number self }
    {
        match self {
            Code::Unterminated => 1,
            Code::BadByte => 2,
            Code::NotUtf8 => 3,
            Code::TooLong => 4,
            Code::TooNested => 5,
            Code::Syntax => 6,
            Code::TooDeep => 7,
            Code::FileTooLong => 8,
            Code::TooManyFiles => 9,
            Code::UnknownTable => 10,
            Code::UnknownColumn => 11,
            Code::Ambiguous => 12,
            Code::DuplicateAlias => 13,
            Code::WholeRow => 14,
            Code::UnknownType => 15,
            Code::UnknownSchema => 16,
            Code::NoCandidate => 20,
            Code::Several => 21,
            Code::UnknownFunction => 22,
            Code::NoCast => 23,
            Code::NoCommon => 24,
            Code::NotArray => 25,
            Code::NotBoolean => 26,
            Code::NoAssignment => 27,
            Code::Polymorphic => 28,
            Code::Ungrouped => 30,
            Code::AggregateHere => 31,
            Code::NestedAggregate => 32,
            Code::OuterAggregate => 33,
            Code::ColumnCount => 40,
            Code::BadPosition => 41,
            Code::TwiceAssigned => 42,
            Code::TooManyOutputs => 43,
            Code::Undetermined => 50,
            Code::Conflict => 51,
            Code::Mixed => 52,
            Code::SliceUse => 53,
            Code::TooManyParams => 54,
            Code::BadName => 60,
            Code::BadCommand => 61,
            Code::DuplicateName => 62,
            Code::NoColumns => 63,
            Code::TooManyQueries => 64,
            Code::TextTooLong => 65,
            Code::BadJson => 70,
            Code::BadKey => 71,
            Code::NoWriter => 72,
            Code::SameOut => 73,
            Code::Exists => 80,
            Code::Missing => 81,
            Code::InUse => 82,
            Code::InPrimaryKey => 83,
            Code::TooManyColumns => 84,
            Code::Clash => 90,
            Code::BadOption => 91,
            Code::NotDeclaration => 95,
            Code::NotYet => 99,
        }
    }

    /// Its word.
    pub fn word(self) -> &'static str
        ensures { result.now ≡ Refusals.word self }
    {
        match self {
            Code::Unterminated => "Unterminated",
            Code::BadByte => "BadByte",
            Code::NotUtf8 => "NotUtf8",
            Code::TooLong => "TooLong",
            Code::TooNested => "TooNested",
            Code::Syntax => "Syntax",
            Code::TooDeep => "TooDeep",
            Code::FileTooLong => "FileTooLong",
            Code::TooManyFiles => "TooManyFiles",
            Code::UnknownTable => "UnknownTable",
            Code::UnknownColumn => "UnknownColumn",
            Code::Ambiguous => "Ambiguous",
            Code::DuplicateAlias => "DuplicateAlias",
            Code::WholeRow => "WholeRow",
            Code::UnknownType => "UnknownType",
            Code::UnknownSchema => "UnknownSchema",
            Code::NoCandidate => "NoCandidate",
            Code::Several => "Several",
            Code::UnknownFunction => "UnknownFunction",
            Code::NoCast => "NoCast",
            Code::NoCommon => "NoCommon",
            Code::NotArray => "NotArray",
            Code::NotBoolean => "NotBoolean",
            Code::NoAssignment => "NoAssignment",
            Code::Polymorphic => "Polymorphic",
            Code::Ungrouped => "Ungrouped",
            Code::AggregateHere => "AggregateHere",
            Code::NestedAggregate => "NestedAggregate",
            Code::OuterAggregate => "OuterAggregate",
            Code::ColumnCount => "ColumnCount",
            Code::BadPosition => "BadPosition",
            Code::TwiceAssigned => "TwiceAssigned",
            Code::TooManyOutputs => "TooManyOutputs",
            Code::Undetermined => "Undetermined",
            Code::Conflict => "Conflict",
            Code::Mixed => "Mixed",
            Code::SliceUse => "SliceUse",
            Code::TooManyParams => "TooManyParams",
            Code::BadName => "BadName",
            Code::BadCommand => "BadCommand",
            Code::DuplicateName => "DuplicateName",
            Code::NoColumns => "NoColumns",
            Code::TooManyQueries => "TooManyQueries",
            Code::TextTooLong => "TextTooLong",
            Code::BadJson => "BadJson",
            Code::BadKey => "BadKey",
            Code::NoWriter => "NoWriter",
            Code::SameOut => "SameOut",
            Code::Exists => "Exists",
            Code::Missing => "Missing",
            Code::InUse => "InUse",
            Code::InPrimaryKey => "InPrimaryKey",
            Code::TooManyColumns => "TooManyColumns",
            Code::Clash => "Clash",
            Code::BadOption => "BadOption",
            Code::NotDeclaration => "NotDeclaration",
            Code::NotYet => "NotYet",
        }
    }
}
