// The kinds of lattice that we supply.

// `W` is a weight triple: as a host hands it in, or one that is known to add up.
#[derive(Clone, Copy, Debug)]
pub enum Kind<W> {
    // a node leads to two, by halves
    Binomial,
    // a node leads to three, by weights
    Trinomial(W),
    // the smaller answer of two trinomials on one table
    WorstCase(W, W),
}
