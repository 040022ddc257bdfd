// A script's commands, performed in order.
use crate::desk::Desk;
use crate::say;
use game::clash::AnyClash;
use lattice::tree::Tree;
use rates::kind::Kind;
use script::Command;
use sheet::all_nodes;
use std::io;

// A sheet stands open from the start, on the lattice of a refused table (one step, rate 0), under put prevails; the reader
// of scripts asks for an `open` before any call of it.
pub fn run(rt: &HostRuntime, commands: &[Command]) -> io::Result<()> {
    let heap = rt.alloc();
    let mut lattice = Tree::new(Kind::Binomial, 1, &[]);
    let mut clash = AnyClash::PutPrevails;
    let mut desk = Desk::open(heap, lattice, clash)?;
    for command in commands {
        match command {
            Command::Lattice { kind, steps, rates } => {
                match Tree::try_new(*kind, *steps, rates.as_slice()) {
                    Ok(named) => {
                        lattice = named;
                        println!(rt; "nodes {}", all_nodes(&lattice))?;
                    }
                    Err(fault) => say::refused(rt, &fault)?,
                }
            }
            Command::Clash(rule) => {
                clash = *rule;
                println!(rt; "clash {clash}")?;
            }
            Command::Open => {
                desk = Desk::open(heap, lattice, clash)?;
                println!(rt; "w {}", desk.first_worked())?;
            }
            Command::Sheet(call) => desk.perform(rt, *call)?,
        }
    }
    Ok(())
}
