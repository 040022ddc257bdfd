// The rule of one node.
ghost use Rattle.std.specs.Prelude.{◌≡◌};
ghost use Rattle.game.specs.Rule.{figure_of, mark_of};

use crate::clash::ClashRule;
use crate::mark::Mark;

// The figure of a node, and who exercises there.
#[derive(Clone, Copy)]
pub struct Node {
    pub figure: u32,
    pub mark: Mark,
}

// From the put amount and the call amount, where the step holds the right, and the value of going on.
pub fn decide<K: ClashRule>(clash: &K, put: Option<u32>, call: Option<u32>, going_on: u32) -> Node
    ensures figure { result.figure ≡ figure_of (K.ClashRule.settled clash.now) put call going_on }
    ensures mark { result.mark ≡ mark_of put call going_on }
{
    match (put, call) {
        (Some(l), Some(u)) if l > u => Node {
            figure: clash.settle(l, u),
            mark: Mark::Both,
        },
        (Some(l), _) if going_on < l => Node {
            figure: l,
            mark: Mark::Put,
        },
        (_, Some(u)) if going_on > u => Node {
            figure: u,
            mark: Mark::Call,
        },
        _ => Node {
            figure: going_on,
            mark: Mark::Neither,
        },
    }
}
