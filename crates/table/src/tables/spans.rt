// Reading the entries of a table that a span names.
ghost use Rattle.std.specs.Prelude.{◌≡◌, length};
ghost use Rattle.std.specs.List.{slice_get};
ghost use Rattle.table.specs.Tables.{part};

use super::Span;

impl Span {
    // The entries that the span names in a table; none where it leaves the table.
    pub fn of<T>(self, table: &[T]) -> &[T]
        ensures { result.now ≡ part table.now self }
    {
        let first = self.first as usize;
        let end = first + self.count as usize;
        table.get(first..end).unwrap_or(&[])
    }

    // How many entries the span names in a table; none where it leaves the table.
    pub fn entries<T>(self, table: &[T]) -> usize
        ensures { result ≡ length (part table.now self) }
    {
        self.of(table).len()
    }

    // The entry at a place of the span; none past the last.
    pub fn entry<T: Copy>(self, table: &[T], place: usize) -> Option<T>
        ensures { result ≡ slice_get (part table.now self) place }
    {
        self.of(table).get(place).copied()
    }
}
