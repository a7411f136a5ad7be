//! Rows that are made with all their room, so that adding to them allocates nothing.

/// Adds to a row that was made with all the room that it needs; `None` where it has no more room.
#[inline]
pub fn push_if_room<T: Copy>(row: &mut Vec<T>, item: T) -> Option<()> {
    if row.len() >= row.capacity() {
        return None;
    }
    row.push_reserved(item);
    Some(())
}
