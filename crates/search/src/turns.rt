// The search itself: turn after turn, the bridge of best label is taken.
ghost use Rattle.std.specs.Prelude.{◌≡◌, ℕ, ◌+◌, ◌<◌, ◌≤◌, length, Some, None, slice_index};
ghost use Rattle.theory.specs.Search.{take_bridge, search_from, search as whole_search};
ghost use Rattle.search.specs.Marks.{state_of};

use crate::begin::begin;
use crate::best::best;
use crate::choice::Choice;
use crate::ends::Ends;
use crate::net::Net;

// A bridge is taken: it is marked so, and offers along its lines. Labels, ways and marks are three slices here and below, not a struct: with
// `&mut` fields each contract would have to say of each that it is still the same loan.
fn take_bridge<N: Net>(
    net: &N,
    labels: &mut [u16],
    ways: &mut [u16],
    taken: &mut [u16],
    from: Choice<N::Label>,
)
    requires sound { N.Net.sound net.now }
    requires labels { length labels.old ≡ N.Net.bridges net.now + 1 }
    requires ways { length ways.old ≡ N.Net.bridges net.now + 1 }
    requires taken { length taken.old ≡ N.Net.bridges net.now + 1 }
    requires bridge { (1 ≤ from.bridge) × (from.bridge ≤ N.Net.bridges net.now) }
    requires label { N.Net.read net.now (slice_index labels.old from.bridge) ≡ Some from.label }
    ensures { state_of (N.Net.read net.now) labels.new ways.new taken.new ≡ take_bridge N.Net.le (N.Net.rule net.now) from.bridge from.label (state_of (N.Net.read net.now) labels.old ways.old taken.old) }
{
    taken[usize::from(from.bridge)] = 1;
    net.offer_from(labels, ways, from.bridge, from.label);
}

// The search over bridges 1 to n, until `end` is taken or no untaken bridge has a label.
fn run_turns<N: Net>(
    net: &N,
    labels: &mut [u16],
    ways: &mut [u16],
    taken: &mut [u16],
    n: u16,
    end: u16,
)
    requires sound { N.Net.sound net.now }
    requires bridges { N.Net.bridges net.now ≡ n }
    requires labels { length labels.old ≡ n + 1 }
    requires ways { length ways.old ≡ n + 1 }
    requires taken { length taken.old ≡ n + 1 }
    requires end { end ≤ n }
    ensures { state_of (N.Net.read net.now) labels.new ways.new taken.new ≡ search_from N.Net.le (N.Net.rule net.now) n end n (state_of (N.Net.read net.now) labels.old ways.old taken.old) }
{
    for _turn in 0..n {
        let Some(choice) = best(net, labels, taken, n) else {
            return;
        };
        let is_end = choice.bridge == end;
        if is_end {
            taken[usize::from(choice.bridge)] = 1;
            return;
        }
        take_bridge(net, labels, ways, taken, choice);
    }
}

// The whole search from the start, whose label is that of the number `top`, to the end, whatever working memory held before.
pub fn run_search<N: Net>(
    net: &N,
    labels: &mut [u16],
    ways: &mut [u16],
    taken: &mut [u16],
    n: u16,
    ends: Ends,
    top: u16,
)
    requires sound { N.Net.sound net.now }
    requires bridges { N.Net.bridges net.now ≡ n }
    requires labels { length labels.old ≡ n + 1 }
    requires ways { length ways.old ≡ n + 1 }
    requires taken { length taken.old ≡ n + 1 }
    requires start { ends.start ≤ n }
    requires end { ends.end ≤ n }
    requires none { N.Net.read net.now 0 ≡ None }
    ensures { (x : _) → N.Net.read net.now top ≡ Some x → state_of (N.Net.read net.now) labels.new ways.new taken.new ≡ whole_search N.Net.le (N.Net.rule net.now) n ends.start x ends.end }
{
    begin(labels, ways, taken, ends.start, top);
    run_turns(net, labels, ways, taken, n, ends.end);
}
