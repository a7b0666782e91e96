//! A row that is lent.

/// A row that is lent: how many values it has, and their bytes with the lengths before them.
#[derive(Clone, Copy, Debug)]
pub struct DataRowRef<'a> {
    pub field_count: i16,
    pub payload: &'a [u8],
}
