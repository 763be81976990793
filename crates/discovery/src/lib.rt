// Discovery for a person: a field is surveyed into a book of its own, and what was found is told as text.
#![tactic(auto)]

mod telling;

pub use telling::{Detail, Request, report, report_ring, report_stored};
