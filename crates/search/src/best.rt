// The untaken labelled bridge of best label, the lowest number among those alike.
ghost use Rattle.std.specs.Prelude.{◌≡◌, ℕ, ◌<◌, ◌≤◌, List, length};
ghost use Rattle.theory.specs.Search.{best as best_mark};
ghost use Rattle.search.specs.Marks.{state_of};
ghost use Rattle.search.specs.Choices.{pick, forget, Choosing};

use crate::choice::Choice;
use crate::net::Net;

// The better of the choice so far and a bridge with its label's number, unless it is taken.
fn choose<N: Net>(
    net: &N,
    bridge: u16,
    number: u16,
    taken: bool,
    so_far: Option<Choice<N::Label>>,
) -> Option<Choice<N::Label>>
    ensures { result ≡ pick N.Net.le bridge taken (N.Net.read net.now number) so_far }
{
    if taken {
        return so_far;
    }
    let Some(label) = net.label_of(number) else {
        return so_far;
    };
    let Some(choice) = so_far else {
        return Some(Choice { bridge, label });
    };
    if net.at_most(label, choice.label) {
        Some(choice)
    } else {
        Some(Choice { bridge, label })
    }
}

// The best among bridges 1 to n, by their numbers: the place 0 of labels and marks belongs to no bridge.
pub fn best<N: Net>(net: &N, labels: &[u16], taken: &[u16], n: u16) -> Option<Choice<N::Label>>
    requires { (n < length labels.now) × (n < length taken.now) }
    ensures picks { (ways : List ℕ) → result ≡ forget (best_mark N.Net.le (state_of (N.Net.read net.now) labels.now ways taken.now) n) }
    ensures within { Choosing (N.Net.read net.now) labels.now n result }
{
    let mut chosen = None;
    for bridge in 1..=n {
        let at = usize::from(bridge);
        chosen = choose(net, bridge, labels[at], taken[at] != 0, chosen);
    }
    chosen
}
