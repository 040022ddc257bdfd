// Values callable and putable bonds from a script.
#![tactic(auto)]

mod desk;
mod perform;
mod say;
mod table;

use perform::run;
use script::{ReadError, read_script};
use std::alloc::Global;
use std::io::Read;
use std::process::ExitCode;
use std::{env, fs, io};

static HELP: &str = "usage: hellasum [SCRIPT]
Values a callable and putable bond on a rate lattice as a game between issuer and holder. It reads a script from the
file SCRIPT, or from standard input, and prints one answer for each call.

One call a line; words are separated by blanks or tabs, # begins a comment, and numbers are decimal.
Amounts are ticks of 0.0001; rates and spreads are parts per million for one step.

  lattice binomial N RATE..              a tree of N steps, and its rates by step and node   nodes T
  lattice trinomial N P Q U RATE..       the same with three branches of these weights       nodes T
  lattice worst N P Q U P Q U RATE..     the smaller of two such weightings                  nodes T
  clash put | clash call | clash halfway what is paid where both sides exercise              clash put
  open                                   a new sheet on that lattice, under that rule        w 3
  coupon T AMOUNT                        the coupon of step T                                w 3
  call T PRICE NOTICE                    the issuer may call at step T                       w 3
  put T PRICE NOTICE                     the holder may put at step T                        w 3
  cancel call T | cancel put T           no such right at step T                             w 3
  redeem AMOUNT                          the redemption at the last step                     w 3
  spread S                               a spread over every rate                            w 3
  back N                                 work the next N steps back                          w 0
  read T J                               node J of step T, if it is worked                   figure 980000 mark 1
  cost                                   what the calls cost and the puts are worth          call 20000 put 0
  fit PRICE                              the greatest spread that reaches a price            spread 1
  strike                                 the worked root figure and the spread               struck 997619 0
  table                                  the worked nodes, for people

w is the first worked step. Marks: 0 neither side exercises, 1 the issuer calls, 2 the holder puts, 3 both.
A call that is turned down answers: refused NUMBER PLACE LAYER, and the script goes on. A line that is no call is
reported with its number; nothing is performed then, and the exit status is 1.
";

// What the command line asks for.
#[derive(Drop)]
enum Request {
    Help,
    File(String),
    Input,
    Nonsense,
}

fn asked(rt: &HostRuntime) -> io::Result<Request> {
    let mut args = env::args(rt)?.skip(1);
    let Some(first) = args.next() else {
        return Ok(Request::Input);
    };
    if args.next().is_some() {
        return Ok(Request::Nonsense);
    }
    match first.as_str() {
        "--help" | "-h" => Ok(Request::Help),
        _ => Ok(Request::File(first)),
    }
}

fn input(rt: &HostRuntime) -> io::Result<Vec<u8>> {
    let mut bytes = Vec::new(rt.alloc());
    rt.stdin().read_to_end(&mut bytes)?;
    Ok(bytes)
}

fn perform_text(rt: &HostRuntime, text: &[u8]) -> io::Result<()> {
    match read_script(rt.alloc(), text) {
        Ok(commands) => run(rt, &commands),
        Err(ReadError::Fault(fault)) => {
            eprintln!(rt; "{fault}")?;
            Err(io::Error::from(io::ErrorKind::InvalidData))
        }
        Err(ReadError::Memory) => {
            eprintln!(rt; "out of memory")?;
            Err(io::Error::from(io::ErrorKind::OutOfMemory))
        }
    }
}

fn perform_request(rt: &HostRuntime) -> io::Result<()> {
    match asked(rt)? {
        Request::Help => print!(rt; "{HELP}"),
        Request::Nonsense => {
            eprintln!(rt; "usage: hellasum [SCRIPT]")?;
            Err(io::Error::from(io::ErrorKind::InvalidInput))
        }
        Request::Input => {
            let text = input(rt)?;
            perform_text(rt, &text)
        }
        Request::File(path) => {
            // by arms: the failure is told before it is passed on
            let text = match fs::read(rt, path.as_str()) {
                Ok(text) => text,
                Err(e) => {
                    eprintln!(rt; "cannot read {path}")?;
                    return Err(e);
                }
            };
            perform_text(rt, &text)
        }
    }
}

// A fault has been told by then; that a stream failed, the status tells alone.
fn main(rt: HostRuntime) -> ExitCode {
    match perform_request(&rt) {
        Ok(()) => ExitCode::SUCCESS,
        Err(_) => ExitCode::FAILURE,
    }
}
