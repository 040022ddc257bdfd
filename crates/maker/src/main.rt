// A bond on a lattice and under a clash rule that the sheet has never heard of.
#![tactic(auto)]

mod split;
mod states;

use lattice::Lattice;
use rates::fault::Ground;
use sheet::{Sheet, SheetFault, all_nodes};
use split::Split;
use states::TwoStates;
use std::fmt::Display;
use std::io;

// A maker's sheet, with the rows that it is worked in: the programs have one each, over rows of their own kind.
#[derive(Drop)]
struct Bond {
    lattice: TwoStates,
    sheet: Sheet<TwoStates, Split>,
    values: [u32; 7],
    marks: [u8; 7],
}

impl Bond {
    fn open(lattice: TwoStates) -> Bond {
        Bond {
            lattice,
            sheet: Sheet::open(lattice, Split),
            values: [0; 7],
            marks: [0; 7],
        }
    }

    // Coupons, one of them past the last step; calls at steps 1 and 2; a put at step 1 that is paid a step later.
    fn edit(&mut self, rt: &HostRuntime) -> io::Result<()> {
        let sheet = &mut self.sheet;
        say(rt, "coupon 1 50000", sheet.coupon(1, 50_000))?;
        say(rt, "coupon 2 50000", sheet.coupon(2, 50_000))?;
        say(rt, "coupon 3 50000", sheet.coupon(3, 50_000))?;
        say(rt, "coupon 4 50000", sheet.coupon(4, 50_000))?;
        say(rt, "call 1 1000000 0", sheet.call(1, 1_000_000, 0))?;
        say(rt, "call 2 985000 0", sheet.call(2, 985_000, 0))?;
        say(rt, "put 1 990000 1", sheet.put(1, 990_000, 1))
    }

    fn back(&mut self, rt: &HostRuntime) -> io::Result<()> {
        let first = self.sheet.back(4, &mut self.values, &mut self.marks);
        say(rt, "back 4", first)
    }

    fn read(&self, rt: &HostRuntime, t: usize, j: usize) -> io::Result<()> {
        print!(rt; "read {t} {j}            ")?;
        answer(rt, "", self.sheet.read(t, j, &self.values, &self.marks))
    }

    // Each node of each step, and one past the last.
    fn read_all(&self, rt: &HostRuntime) -> io::Result<()> {
        for t in 0..=self.lattice.steps() {
            for j in 0..=self.lattice.nodes(t) {
                self.read(rt, t, j)?;
            }
        }
        Ok(())
    }

    fn cost(&self, rt: &HostRuntime) -> io::Result<()> {
        println!(rt; "root                figure {}", self.sheet.root_figure())?;
        println!(rt; "cost                {}", self.sheet.cost())
    }
}

// An answer behind its word, or the refusal: as in the other programs, which differ in the layer and the line's end.
fn answer<T: Display + Drop, F: Ground + Drop>(
    rt: &HostRuntime,
    word: &str,
    answer: Result<T, F>,
) -> io::Result<()> {
    match answer {
        Ok(value) => println!(rt; "{word}{value}"),
        Err(fault) => println!(rt; "refused {} {}", fault.number(), fault.place().at),
    }
}

// What was done, and the first worked step after it.
fn say(rt: &HostRuntime, done: &str, first: Result<usize, SheetFault>) -> io::Result<()> {
    print!(rt; "{done:<20}")?;
    answer(rt, "w ", first)
}

fn work(rt: &HostRuntime, lattice: TwoStates) -> io::Result<()> {
    println!(rt; "nodes {}", all_nodes(&lattice))?;
    let mut bond = Bond::open(lattice);
    bond.edit(rt)?;
    bond.back(rt)?;
    bond.read_all(rt)?;
    bond.cost(rt)?;
    say(rt, "spread 10000", bond.sheet.spread(10_000))?;
    bond.back(rt)?;
    bond.read(rt, 0, 0)?;
    bond.cost(rt)
}

fn main(rt: HostRuntime) -> io::Result<()> {
    match TwoStates::new(3, 20_000, 80_000) {
        Some(lattice) => work(&rt, lattice),
        None => rt.println("no such lattice"),
    }
}
