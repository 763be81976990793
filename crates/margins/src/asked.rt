// A widest route whose margins are asked: the tables that it lies in, its line numbers, its two ends and its width. What `Sound` says of it
// is asked by contracts, not kept as ghost fields: each would owe a proof that it has one proof at most, and be no plainer.
use search::{Ends, Tables};

#[derive(Clone, Copy)]
pub struct Asked<'a, G> {
    pub tables: &'a Tables<'a, G>,
    pub numbers: &'a [u16],
    pub ends: Ends,
    pub width: G,
}
