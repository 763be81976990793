// The way in to a bridge, read back from it, and numbers told over it.
ghost use Rattle.std.specs.Prelude.{◌≡◌, ℕ, ◌<◌, ◌≤◌, [], ◌++◌, length, drop, None, Option as Held};
ghost use Rattle.search.specs.Ways.{back, placed, place_after, named_over};

use crate::ended::Ended;
use crate::ends::Ends;
use crate::net::Net;

// Writes the bridges after the start on the way in to the end, in order, at the back of the memory, and tells where they begin.
// The loop follows a chain of bridges to its start; the place that it writes only falls with it.
pub fn way_back<N: Net>(net: &N, ended: &Ended<'_>, ends: Ends, spare: &mut [u16]) -> usize
    requires alike { length ended.now.ways.now ≡ length ended.now.labels.now }
    requires none { N.Net.read net.now 0 ≡ None }
    ensures place { result ≤ length spare.new }
    ensures row { drop result spare.new ≡ back (N.Net.read net.now) ended.now.labels.now ended.now.ways.now (length spare.old) ends.start ends.end [] }
{
    let mut at = spare.len();
    let mut bridge = ends.end;
    while at > 0 {
        let place = usize::from(bridge);
        if bridge == ends.start {
            return at;
        }
        if place >= ended.labels.len() {
            return at;
        }
        let Some(_label) = net.label_of(ended.labels[place]) else {
            return at;
        };
        at -= 1;
        spare[at] = bridge;
        bridge = ended.ways[place];
    }
    at
}

// Writes a number that may be there, and tells the place after it.
pub fn put_number(numbers: &mut [u16], at: usize, number: Option<u16>) -> usize
    requires { at < length numbers.old }
    ensures place { result ≡ place_after at number }
    ensures after { numbers.new ≡ placed numbers.old at number }
{
    match number {
        None => at,
        Some(x) => {
            numbers[at] = x;
            at + 1
        }
    }
}

// Writes the numbers that are told for each two bridges that follow one another from `start` on over a row, and tells how many
// they are; memory beyond them stays. The place is told from step to step, not counted: two bridges may name no number.
pub fn write_named<F: Fn(u16, u16) -> Option<u16>>(
    named: F,
    start: u16,
    row: &[u16],
    numbers: &mut [u16],
) -> usize
    requires callable { F.IsAlwaysCallable named }
    requires fits { length row.now ≤ length numbers.old }
    ensures count { (tells : ℕ → ℕ → Held ℕ) → ((u v : ℕ) (r : Held ℕ) → F.post named u v r → r ≡ tells u v) → result ≡ length (named_over tells start row.now) }
    ensures after { (tells : ℕ → ℕ → Held ℕ) → ((u v : ℕ) (r : Held ℕ) → F.post named u v r → r ≡ tells u v) → numbers.new ≡ named_over tells start row.now ++ drop result numbers.old }
{
    let mut count = 0;
    let mut from = start;
    for bridge in row {
        let number = named(from, *bridge);
        count = put_number(numbers, count, number);
        from = *bridge;
    }
    count
}
