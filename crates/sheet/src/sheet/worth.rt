// The root figure, worked or not, and what the rights in it are worth.
// Where its proof needs answers, a public call is one line over a private function of its promise: so a wrong one is
// refused here, not in a proof.
ghost use Rattle.std.specs.Prelude.{◌≡◌, ℕ};
ghost use Rattle.game.specs.Game.{root};
ghost use Rattle.sheet.specs.Promises.{RootFigure, Costed};

use crate::answer::Costs;
use crate::sheet::Sheet;
use game::clash::ClashRule;
use game::terms::Terms;
use lattice::Lattice;

impl<L: Lattice, K: ClashRule> Sheet<L, K> {
    // The figure of node 0 of step 0 for the terms in force.
    pub fn root_figure(&self) -> u32
        ensures { RootFigure (L.Lattice.model self.now.lattice) (K.ClashRule.settled self.now.clash) self.now.state result }
    {
        self.root()
    }

    fn root(&self) -> u32
        ensures { RootFigure (L.Lattice.model self.now.lattice) (K.ClashRule.settled self.now.clash) self.now.state result }
    {
        self.valuation().root()
    }

    // What the calls cost the holder and what the puts are worth to him.
    pub fn cost(&self) -> Costs
        ensures { Costed (L.Lattice.model self.now.lattice) (K.ClashRule.settled self.now.clash) self.now.state result }
    {
        self.costs()
    }

    fn costs(&self) -> Costs
        ensures { Costed (L.Lattice.model self.now.lattice) (K.ClashRule.settled self.now.clash) self.now.state result }
    {
        let whole = self.valuation();
        let uncalled = Terms {
            calls: [None; 64],
            ..self.state.terms
        };
        let unput = Terms {
            puts: [None; 64],
            ..self.state.terms
        };
        let root = whole.root();
        Costs {
            call: whole.of_terms(&uncalled).root() - root,
            put: root - whole.of_terms(&unput).root(),
        }
    }
}
