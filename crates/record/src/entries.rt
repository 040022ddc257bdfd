// A list of a record: the entries of a table, by rising step.
ghost use Rattle.std.specs.Prelude.{◌≡◌, ◌+◌, ◌<◌, ◌≤◌, length, is_some, cond};
ghost use Rattle.record.specs.Encode.{entries_of, list_bytes};

use crate::cell::Cell;
use crate::field::Field;
use crate::writer::Writer;

#[derive(Drop)]
pub(crate) struct Entries<'a, const N: usize, C: Cell<N>> {
    table: &'a [C],
    count: usize,
    ghost few: { length table.now < 256 },
    ghost counted: { count ≡ length (entries_of C.held 0 table.now) },
}

impl<'a, const N: usize, C: Cell<N>> Entries<'a, N, C> {
    ghost use Rattle.std.specs.List.{flat_map};
    ghost use Rattle.record.specs.Puts.{Put};

    pub(crate) fn new(table: &'a [C]) -> Entries<'a, N, C>
        requires { length table.now < 256 }
        ensures { result.table.now ≡ table.now }
    {
        let count = table
            .iter()
            .map(
                |cell: &C| -> usize
                    ensures { result ≡ cond (is_some (C.held cell.now)) 1 0 }
                { usize::from(cell.entry().is_some()) },
            )
            .sum();
        Entries { table, count }
    }

    // The entries without their count.
    fn put_each(&self, writer: &mut Writer)
        requires { writer.old.at + length (flat_map C.entry_bytes (entries_of C.held 0 self.now.table.now)) ≤ length writer.old.out.now }
        ensures { Put (flat_map C.entry_bytes (entries_of C.held 0 self.now.table.now)) writer.old writer.new }
    {
        for (step, cell) in self.table.iter().enumerate() {
            if let Some(entry) = cell.entry() {
                writer.put(&C::entry_bytes(step as u8, entry));
            }
        }
    }
}

impl<'a, const N: usize, C: Cell<N>> Field for Entries<'a, N, C> {
    ghost field_bytes = { λ l. list_bytes C.entry_bytes (entries_of C.held 0 l.table.now) };

    fn size(&self) -> usize {
        // The test has a name, so that the proof cites it and not the way it is written.
        let some = self.count > 0;
        if some { 1 + N * self.count } else { 0 }
    }

    fn put(&self, writer: &mut Writer) {
        if self.count == 0 {
            return;
        }
        writer.put(&[self.count as u8]);
        self.put_each(writer);
    }
}
