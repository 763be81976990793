// The search over any net of lines in working memory, and a book's tables as such a net. An inner layer: the published
// questions check the book and the lengths of memory before they call it.
#![tactic(auto)]

mod begin;
mod best;
mod chain;
mod choice;
mod ended;
mod ends;
mod label;
mod net;
mod offer;
mod tables;
mod turns;
mod way;
mod width;

pub use begin::clear;
pub use chain::number_between;
pub use ended::{Ended, is_marked};
pub use ends::Ends;
pub use label::{label_at_most, label_of, record_at};
pub use net::Net;
pub use offer::{Numbered, hand_down, offer_label};
pub use tables::{START_LABEL, Tables, search_widest};
pub use turns::run_search;
pub use way::{put_number, way_back, write_named};
pub use width::{best_width, width_at, width_told};
