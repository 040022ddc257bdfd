// A clash rule of our own: three parts for the holder and one for the issuer.
ghost use Rattle.std.specs.Prelude.{◌≡◌};
ghost use Rattle.maker.specs.Split.{split as split_of, split_fair};

use game::clash::ClashRule;

#[derive(Clone, Copy)]
pub struct Split;

impl ClashRule for Split {
    ghost settled = { λ _. split_of };

    ghost fair = { λ _. split_fair };

    fn settle(&self, put: u32, call: u32) -> u32 {
        ((3 * u64::from(put) + u64::from(call)) / 4) as u32
    }
}
