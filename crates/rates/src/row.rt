// Rows as a lattice reads them.
ghost use Rattle.std.specs.Prelude.{◌≡◌};
ghost use Rattle.rates.specs.Formulas.{entry_at};

// An entry of a row; one above 650,000,000 counts as that, and one past the row as 0.
#[inline]
pub fn entry(row: &[u32], k: usize) -> u64
    ensures { result ≡ entry_at row.now k }
{
    u64::from(row.get(k).copied().unwrap_or(0).min(650_000_000))
}
