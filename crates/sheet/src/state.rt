// What a sheet remembers between calls.
ghost use Rattle.std.specs.Prelude.{◌≡◌, ◌≤◌};
ghost use Rattle.sheet.specs.Edits.{opened as opened_on};

use game::terms::Terms;

#[derive(Clone, Copy)]
pub struct State {
    pub terms: Terms,
    pub spread: u32,
    // the first worked step: the steps from here on stand worked in the rows
    pub first: usize,
}

impl State {
    // A redemption of 1,000,000, no coupons and no rights, a spread of 0, nothing worked.
    pub(crate) fn opened(last: usize) -> State
        requires { last ≤ 64 }
        ensures { result ≡ opened_on last }
    {
        let terms = Terms {
            redemption: 1_000_000,
            coupons: [0; 65],
            calls: [None; 64],
            puts: [None; 64],
        };
        State {
            terms,
            spread: 0,
            first: last + 1,
        }
    }
}
