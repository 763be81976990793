// How far each line's grade may move while a widest route stays widest, over handed-over memory, for every kind of grade.
#![tactic(auto)]

mod asked;
mod given;
mod judging;
mod margin;
mod published;
mod reach;

pub use margin::Margin;
pub use published::margins;
