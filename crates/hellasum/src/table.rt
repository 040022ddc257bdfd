// The worked nodes of a sheet as a table for people.
use crate::desk::Desk;
use game::mark::Mark;
use lattice::Lattice;
use sheet::Entry;
use std::io;

// A mark row is the host's, so its byte may be no mark. The line is printed in one call, which is one write, so that no other
// program's output comes between.
fn line(rt: &HostRuntime, t: usize, j: usize, entry: Entry) -> io::Result<()> {
    let whole = entry.figure / 10_000;
    let rest = entry.figure % 10_000;
    match Mark::try_from(entry.mark) {
        Ok(mark) => println!(rt; "{t:>4} {j:>5} {whole:>8}.{rest:04}  {mark}"),
        Err(_) => println!(rt; "{t:>4} {j:>5} {whole:>8}.{rest:04}  ?"),
    }
}

pub fn print(rt: &HostRuntime, desk: &Desk) -> io::Result<()> {
    let last = desk.lattice().steps();
    let w = desk.first_worked();
    if w > last {
        return rt.println("no step is worked");
    }
    rt.println("step  node         price  exercise")?;
    for t in w..=last {
        for j in 0..desk.lattice().nodes(t) {
            if let Ok(entry) = desk.read(t, j) {
                line(rt, t, j, entry)?;
            }
        }
    }
    Ok(())
}
