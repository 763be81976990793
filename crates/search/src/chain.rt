// The lines that leave a bridge.
ghost use Rattle.std.specs.Prelude.{◌≡◌, ℕ, ◌≤◌, length};
ghost use Rattle.search.specs.Chains.{chain, towards, head, numbered, table_line};

use crate::label::record_at;
use book::Line;
use grade::Grade;

// The first line number of a bridge's chain: 0 outside 1 to n.
// A number, not an Option: links and the bridge table hold 0 for none in the memory that the caller lends.
pub fn head_of(first: &[u16], n: u16, bridge: u16) -> u16
    requires { n ≤ length first.now }
    ensures { result ≡ head n first.now bridge }
{
    if bridge == 0 || bridge > n {
        return 0;
    }
    first[usize::from(bridge) - 1]
}

// The number of the first line on a chain that arrives at `far`.
pub fn number_towards<G: Grade>(lines: &[Line<G>], first: u16, far: u16) -> Option<u16>
    ensures { result ≡ numbered (towards (chain lines.now (length lines.now) first) far) }
{
    let mut slot = first;
    for _step in 0..lines.len() {
        let line = record_at(lines, slot)?;
        if far == line.far {
            return Some(slot);
        }
        slot = line.next;
    }
    None
}

// The number of the line from one bridge to another.
pub fn number_between<G: Grade>(
    first: &[u16],
    lines: &[Line<G>],
    n: u16,
    near: u16,
    far: u16,
) -> Option<u16>
    requires { n ≤ length first.now }
    ensures { result ≡ numbered (table_line n first.now lines.now near far) }
{
    number_towards(lines, head_of(first, n, near), far)
}
