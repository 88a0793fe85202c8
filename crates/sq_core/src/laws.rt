//! What is true of every statement of the core: laws, which cost nothing when the program runs.

ghost use Rattle.std.specs.Prelude.{[], Bool, ◌∷◌, ◌≡◌, ℕ, List, Some, slice_get};
ghost use Rattle.std.specs.List.{AllByRecursion};
ghost use Rattle.sq_base.specs.declared.types.PgType.{PgType};
ghost use Rattle.sq_catalog.specs.Contents.{Contents};
ghost use Rattle.sq_catalog.specs.declared.table.Column.{Column};
ghost use Rattle.sq_shown.specs.declared.signature.Output.{Output};
ghost use Rattle.sq_shown.specs.declared.signature.Param.{Param};
ghost use Rattle.sq_core.specs.declared.weak.Weak.{Weak};
ghost use Rattle.sq_core.specs.declared.statement.CoreStatement.{CoreStatement};
ghost use Rattle.sq_core.specs.declared.node.Node.{Node};
ghost use Rattle.sq_core.specs.declared.node.Node.TheVariants.{Apply, Param as ParamNode};
ghost use Rattle.sq_core.specs.declared.routine.Operation.{Operation};
ghost use Rattle.sq_core.specs.declared.routine.Operation.TheVariants.{NullTest};
ghost use Rattle.sq_core.specs.Calls.{Call, CallFits, NoneStuck};
ghost use Rattle.sq_core.specs.Columns.{ArePrinted, ShowsColumns, select};
ghost use Rattle.sq_core.specs.Forms.{printed_text};
ghost use Rattle.sq_core.specs.Frames.{Scope, Setting};
ghost use Rattle.sq_core.specs.Laws.{AggregatesAreStrict, GivesNewRow, GivesOneNull, GivesStored, HasColumn, PlusIsARow, TextAdditionIsStuck, integer};
ghost use Rattle.sq_core.specs.Operations.{OperationTyped, operation_kind};
ghost use Rattle.sq_core.specs.Possible.{EveryRowIsPossible};
ghost use Rattle.sq_core.specs.Queries.{columns_in};
ghost use Rattle.sq_core.specs.Sound.{IsTyped, NeverStuck};
ghost use Rattle.sq_core.specs.Statements.{AllTyped, kinds_of};
ghost use Rattle.sq_core.specs.Typing.{NodeTyped, ParamStands, node_kind};
ghost use Rattle.sq_shown.specs.Forms.{IsPrinted, printed_form};
ghost use Rattle.sq_shown.specs.declared.signature.Language.TheVariants.{Go};
ghost use Rattle.sq_core.specs.Values.{Database, DatabaseFits, Row, Value, empty_tables};

/// What is typed is never stuck, and what it answers fits: on every database that fits the
/// catalogue, with all arguments that fit the printed parameters of a language that counts, and
/// with every oracle.
pub fn typed_is_never_stuck()
    ensures { (contents : Contents) (weak : Weak) (core : CoreStatement) (params : List Param) (outputs : List Output)
        → IsTyped contents weak core params outputs → NeverStuck contents weak core params outputs }
{}

/// How an operation over operands is typed, and its type and mark. A parameter of unknown type stands
/// under a null test alone.
pub fn operations_are_typed()
    ensures typed { (contents : Contents) (params : List Param) (operation : Operation) (operands : List Node) (scope : Scope)
        → AllTyped contents params operands scope → OperationTyped contents operation (kinds_of contents params operands scope)
        → NodeTyped contents params (Apply operation operands) scope }
    ensures kind { (contents : Contents) (params : List Param) (operation : Operation) (operands : List Node) (scope : Scope)
        → node_kind contents params (Apply operation operands) scope ≡ operation_kind contents operation (kinds_of contents params operands scope) }
    ensures tested { (contents : Contents) (params : List Param) (number : ℕ) (of : PgType) (negated : Bool) (scope : Scope)
        → ParamStands contents params number of → NodeTyped contents params (Apply (NullTest negated) (ParamNode number of ∷ [])) scope }
{}

/// Tables without rows fit every catalogue.
pub fn empty_tables_fit()
    ensures { (contents : Contents) → DatabaseFits contents (empty_tables contents) }
{}

/// The addition of whole numbers over an operand that gives a text is stuck.
pub fn text_addition_is_stuck()
    ensures { (contents : Contents) (params : List Param) (database : Database) (arguments : List Value) (left right : Node) (setting : Setting)
        → TextAdditionIsStuck contents params database arguments left right setting }
{}

/// Calls of typed queries, one after the other, are never stuck: each answer fits, and so does each
/// database on the way.
pub fn calls_are_never_stuck()
    ensures { (contents : Contents) (weak : Weak) (calls : List Call) (database : Database)
        → DatabaseFits contents database → AllByRecursion (CallFits contents weak) calls → NoneStuck contents database calls }
{}

/// SELECT of one column of a table gives exactly the stored values, in order.
pub fn one_column_gives_what_is_stored()
    ensures { (contents : Contents) (database : Database) (table column : ℕ) (of : PgType) (rows : List Row)
        → DatabaseFits contents database → slice_get database table ≡ Some rows → HasColumn contents table column of
        → GivesStored contents database table column of rows }
{}

/// The addition of whole numbers is a row of the built-in table, and it is none with a text as its
/// result.
pub fn plus_is_a_row()
    ensures { PlusIsARow }
{}

/// SELECT of the sum of a column over a table without rows gives one row of null.
pub fn sum_of_nothing_is_null()
    ensures { (contents : Contents) (database : Database) (table column : ℕ) → slice_get database table ≡ Some [] → GivesOneNull contents database table column }
{}

/// INSERT of one row into a table of one column of whole numbers, with RETURNING: it gives the new
/// row, and the table has it.
pub fn inserted_row_is_returned()
    ensures { (contents : Contents) (database : Database) (table : ℕ) (column : Column) (reading : List ℕ) (rows : List Row)
        → columns_in (slice_get contents.tables table) ≡ column ∷ [] → column.of ≡ integer → slice_get database table ≡ Some rows
        → GivesNewRow contents database table reading rows }
{}

/// SELECT of columns of one table is typed, with those columns' types and marks.
pub fn select_of_columns_is_typed()
    ensures { (contents : Contents) (weak : Weak) (place : ℕ) (nodes : List Node) (outputs : List Output)
        → ArePrinted outputs → ShowsColumns contents place nodes outputs → IsTyped contents weak (select place nodes) [] outputs }
{}

/// The text of a type that needs no catalogue is the one that the writer of Go writes.
pub fn text_is_as_written()
    ensures { (contents : Contents) (of : PgType) (nullable : Bool) → IsPrinted of → printed_text Go contents of nullable ≡ printed_form of nullable }
{}

/// Each entry of the built-in table can be picked over some types, and is then a row of the table.
pub fn every_row_is_possible()
    ensures { EveryRowIsPossible }
{}

/// Count is the one aggregate of the built-in table that is not strict, and none gives null by itself.
pub fn aggregates_are_strict()
    ensures { AggregatesAreStrict }
{}
