// Questions on slots books: the lines to turn round for a wider route, and the load.
#![tactic(auto)]

mod answer;
mod doubled;
mod pairs;
mod told;
mod total;
mod way;

pub use answer::turn;
pub use told::Turned;
pub use total::load;
