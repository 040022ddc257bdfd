// The calls of a shared sheet with their arguments, and what they answer.
use record::RecordFault;
use sheet::{Costs, Edit, Entry, SheetFault, Struck};

#[derive(Clone, Copy)]
pub enum Call<'a> {
    // coupon, call, put, cancel, redeem or spread
    Edit(Edit),
    Load(&'a [u8]),
    // how many bytes its output has
    Save(usize),
    Back(usize),
    // a step and a node
    Read(usize, usize),
    Cost,
    Fit(u32),
    Strike,
}

#[derive(Drop)]
pub enum Reply {
    // the first worked step, of an edit, a load or a working back
    First(usize),
    // where the record stands in the output, and how many bytes it has
    Saved(usize, usize),
    Read(Entry),
    Costs(Costs),
    Fitted(u32),
    Struck(Struck),
}

#[derive(Clone, Copy)]
pub enum Fault {
    Sheet(SheetFault),
    Record(RecordFault),
}
