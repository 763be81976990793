// The bench's console: a script is read block by block, and each line is replied to.
#![tactic(auto)]

mod blocks;
mod serving;

pub use blocks::{answer_block, answer_rest};
pub use serving::serve;
