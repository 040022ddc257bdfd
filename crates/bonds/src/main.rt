// Prints worked bonds, the limits of what is taken, and which ground of two is answered.
#![tactic(auto)]

mod ask;
mod desk;
mod limits;
mod refusals;
mod rolls;
mod say;
mod worked;

use desk::Desk;
use std::io;
use worked::{Bond, worked_bonds};

fn print_bond(rt: &HostRuntime, bond: &Bond) -> io::Result<()> {
    rt.println(bond.title)?;
    let mut desk = Desk::open(&bond.rates, bond.clash);
    desk.perform_all(rt, bond.asks)
}

fn main(rt: HostRuntime) -> io::Result<()> {
    for bond in worked_bonds() {
        print_bond(&rt, bond)?;
    }
    rolls::print(&rt)?;
    limits::print(&rt)?;
    refusals::print(&rt)
}
