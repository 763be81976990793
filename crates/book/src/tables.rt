ghost use Rattle.std.specs.Prelude.{◌≡◌, ◌≤◌, length};

use crate::memory::{Head, Line};

// A book in memory whose head keeps the limits and fits the two tables.
#[derive(Drop)]
pub struct Tables<'a, G> {
    pub head: &'a Head,
    pub first: &'a [u16],
    pub lines: &'a [Line<G>],
    ghost few_bridges: { head.now.bridges ≤ 256 },
    ghost few_slots: { length lines.now ≤ 1024 },
    ghost bridges_within: { head.now.bridges ≤ length first.now },
    ghost slots_counted: { head.now.slots ≡ length lines.now },
}
