use crate::row::Row;

/// The rows of one name and one count of inputs, in their order.
#[derive(Clone, Copy, Debug)]
pub struct Group {
    pub name: &'static str,
    pub rows: &'static [Row],
}
