// Answers as they are printed. The program hellasum has functions of the same shape: it ends its lines and names the layer.
use rates::fault::Ground;
use sheet::{Released, SheetFault, Struck};
use std::fmt::Display;
use std::io;
use std::io::Write;

fn refused<F: Ground>(rt: &HostRuntime, fault: &F) -> io::Result<()> {
    let number = fault.number();
    let at = fault.place().at;
    print!(rt; "refused {number} {at}")
}

// An answer behind its word, or the refusal.
pub fn answer<T: Display + Drop, F: Ground + Drop>(
    rt: &HostRuntime,
    word: &str,
    answer: Result<T, F>,
) -> io::Result<()> {
    match answer {
        Ok(value) => print!(rt; "{word}{value}"),
        Err(fault) => refused(rt, &fault),
    }
}

pub fn struck(rt: &HostRuntime, answer: Result<Struck, SheetFault>) -> io::Result<()> {
    match answer {
        Ok(struck) => price(rt, &struck.release()),
        Err(fault) => refused(rt, &fault),
    }
}

// The line of a released price, without its newline.
fn price(rt: &HostRuntime, released: &Released) -> io::Result<()> {
    // `print` writes into what it is lent
    let mut line = [0; 64];
    match released.print(&mut line) {
        Ok(n) => rt
            .stdout()
            .write_all(line.get(0..n.saturating_sub(1)).unwrap_or(&[])),
        Err(fault) => refused(rt, &fault),
    }
}
