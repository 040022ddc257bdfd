// A sheet, the lattice that it was opened on, and its rows.
use crate::{say, table};
use game::clash::AnyClash;
use lattice::tree::Tree;
use script::SheetCall;
use sheet::{Entry, Sheet, SheetFault, all_nodes};
use std::alloc::{AllocError, Global};
use std::io;

#[derive(Drop)]
pub struct Desk<'a> {
    lattice: Tree<'a>,
    sheet: Sheet<Tree<'a>, AnyClash>,
    values: Vec<u32>,
    marks: Vec<u8>,
}

impl<'a> Desk<'a> {
    pub fn open(heap: Global, lattice: Tree<'a>, clash: AnyClash) -> Result<Desk<'a>, AllocError> {
        let n = all_nodes(&lattice);
        Ok(Desk {
            lattice,
            sheet: Sheet::open(lattice, clash),
            values: vec![in heap; 0; n]?,
            marks: vec![in heap; 0; n]?,
        })
    }

    pub fn lattice(&self) -> &Tree<'a> {
        &self.lattice
    }

    pub fn first_worked(&self) -> usize {
        self.sheet.first_worked()
    }

    pub fn read(&self, step: usize, node: usize) -> Result<Entry, SheetFault> {
        self.sheet
            .read(step, node, self.values.as_slice(), self.marks.as_slice())
    }

    // Makes a call and prints its answer.
    pub fn perform(&mut self, rt: &HostRuntime, call: SheetCall) -> io::Result<()> {
        match call {
            SheetCall::Edit(edit) => say::answer(rt, "w ", self.sheet.edit(edit)),
            SheetCall::Back { steps } => say::answer(
                rt,
                "w ",
                self.sheet.back(steps, self.values.as_mut_slice(), self.marks.as_mut_slice()),
            ),
            SheetCall::Read { step, node } => say::answer(rt, "", self.read(step, node)),
            SheetCall::Cost => println!(rt; "{}", self.sheet.cost()),
            SheetCall::Fit { price } => say::answer(rt, "spread ", self.sheet.fit(price)),
            SheetCall::Strike => say::struck(rt, self.sheet.strike(self.values.as_slice())),
            SheetCall::Table => table::print(rt, self),
        }
    }
}
