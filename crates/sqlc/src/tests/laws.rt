use sq_core::{
    aggregates_are_strict, calls_are_never_stuck, empty_tables_fit, inserted_row_is_returned,
    one_column_gives_what_is_stored, operations_are_typed, plus_is_a_row,
    select_of_columns_is_typed, sum_of_nothing_is_null, text_addition_is_stuck, text_is_as_written,
    typed_is_never_stuck,
};
use std::alloc::AllocError;

#[test]
fn the_laws_of_the_core_are_called(_rt: HostRuntime) -> Result<(), AllocError> {
    typed_is_never_stuck();
    calls_are_never_stuck();
    operations_are_typed();
    select_of_columns_is_typed();
    text_is_as_written();
    one_column_gives_what_is_stored();
    inserted_row_is_returned();
    sum_of_nothing_is_null();
    text_addition_is_stuck();
    aggregates_are_strict();
    plus_is_a_row();
    empty_tables_fit();
    Ok(())
}
