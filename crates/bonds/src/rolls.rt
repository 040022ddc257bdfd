// What lattices with three branches roll from one row.
ghost use Rattle.std.specs.Prelude.{◌≡◌, IfOk};
ghost use Rattle.rates.specs.Formulas.{supplied};
ghost use Rattle.bonds.specs.Bonds.{rolled_row};

use lattice::Lattice;
use lattice::tree::Tree;
use rates::fault::LatticeFault;
use rates::kind::Kind;
use rates::weights::Triple;
use std::io;

const LOW_FIRST: Triple = Triple {
    low: 200,
    level: 500,
    high: 300,
};

const HIGH_FIRST: Triple = Triple {
    low: 500,
    level: 200,
    high: 300,
};

// The figure of the root of a lattice of one step, from the entries 100, 200 and 400.
fn rolled(kind: Kind<Triple>, rate: u32) -> Result<u32, LatticeFault>
    ensures { IfOk result (λ x. x ≡ rolled_row (supplied kind) rate) }
{
    let rates = [rate];
    let lattice = Tree::try_new(kind, 1, &rates)?;
    Ok(lattice.roll(0, 0, 0, &[100, 200, 400]))
}

fn line(rt: &HostRuntime, title: &str, figure: Result<u32, LatticeFault>) -> io::Result<()> {
    match figure {
        Ok(figure) => println!(rt; "  {title:<44}figure {figure}"),
        Err(_) => println!(rt; "  {title:<44}refused"),
    }
}

pub fn print(rt: &HostRuntime) -> io::Result<()> {
    rt.println("Three branches, one step, the row 100 200 400")?;
    line(
        rt,
        "weights 200 500 300, rate 0",
        rolled(Kind::Trinomial(LOW_FIRST), 0),
    )?;
    line(
        rt,
        "weights 200 500 300, rate 50000",
        rolled(Kind::Trinomial(LOW_FIRST), 50_000),
    )?;
    let worst = Kind::WorstCase(LOW_FIRST, HIGH_FIRST);
    line(
        rt,
        "worst of that and 500 200 300, rate 0",
        rolled(worst, 0),
    )
}
