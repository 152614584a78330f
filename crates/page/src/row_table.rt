//! Rows of a table that a page lends, filled one after another.
ghost use Rattle.std.specs.Prelude.{◌≡◌};
ghost use Rattle.std.specs.Prelude.{slice_set};

/// Puts a row in the place of this number, if there is room.
pub(crate) fn put_row<T: Drop>(row: T, rows: &mut [T], place: usize)
    ensures { rows.new ≡ slice_set rows.old place row }
{
    if place < rows.len() {
        rows[place] = row;
    }
}
