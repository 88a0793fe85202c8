//! What is true of every resolution: laws, which cost nothing when the program runs.

ghost use Rattle.sq_overload.specs.Laws.{AgreedConvert, PickedAccepts, RowsHaveBaseTypes};

/// A row that is picked is one of the rows, and each of its inputs accepts its argument.
#[tactic(auto, using(crate::proofs::Accepted::picked_accepts))]
pub fn picked_accepts()
    ensures { PickedAccepts }
{}

/// Types that have a common type convert to it in every context, as far as they are known.
#[tactic(auto, using(crate::proofs::Agreements::agreed_convert))]
pub fn agreed_convert()
    ensures { AgreedConvert }
{}

/// Every type of the table's rows is known and no domain.
#[tactic(auto, using(crate::proofs::TableTypes::rows_have_base_types))]
pub fn rows_have_base_types()
    ensures { RowsHaveBaseTypes }
{}
