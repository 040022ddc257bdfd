// Answers as the program prints them. The program bonds has functions of the same shape: it names no layer and ends no line.
use rates::fault::Ground;
use sheet::{Released, SheetFault, Struck};
use std::fmt::Display;
use std::io;
use std::io::Write;

pub fn refused<F: Ground>(rt: &HostRuntime, fault: &F) -> io::Result<()> {
    println!(rt; "refused {} {}", fault.number(), fault.place())
}

// An answer behind its word, or the refusal.
pub fn answer<T: Display + Drop, F: Ground + Drop>(
    rt: &HostRuntime,
    word: &str,
    answer: Result<T, F>,
) -> io::Result<()> {
    match answer {
        Ok(value) => println!(rt; "{word}{value}"),
        Err(fault) => refused(rt, &fault),
    }
}

// A struck price, released and printed.
pub fn struck(rt: &HostRuntime, answer: Result<Struck, SheetFault>) -> io::Result<()> {
    match answer {
        Ok(struck) => price(rt, &struck.release()),
        Err(fault) => refused(rt, &fault),
    }
}

fn price(rt: &HostRuntime, released: &Released) -> io::Result<()> {
    // `print` writes into what it is lent
    let mut line = [0; 64];
    match released.print(&mut line) {
        Ok(n) => {
            print!(rt; "struck ")?;
            rt.stdout().write_all(line.get(0..n).unwrap_or(&[]))
        }
        Err(fault) => refused(rt, &fault),
    }
}
