// Pseudo-random numbers, the same in every run.
#![tactic(auto)]

ghost use Rattle.std.specs.Prelude.{◌≡◌, ◌+◌, ◌<◌, ◌≤◌};
ghost use Rattle.dice.specs.Rolls.{rolled, shown};

#[derive(Clone, Copy)]
pub struct Dice {
    state: u32,
}

impl Dice {
    pub fn new(seed: u32) -> Dice
        ensures { result.state ≡ seed }
    {
        Dice { state: seed }
    }

    // A number below the limit, 0 for a limit of 0.
    pub fn below(&mut self, limit: u16) -> u16
        ensures value { result ≡ shown (rolled self.old.state) limit }
        ensures state { self.new.state ≡ rolled self.old.state }
        ensures within { 1 ≤ limit → result < limit }
        ensures fits { result < 65535 }
    {
        self.state = self.state.wrapping_mul(1_103_515_245).wrapping_add(12_345);
        // `as` cuts nothing: 16 bits are left.
        let high = (self.state / 65_536) as u16;
        high % limit.max(1)
    }

    // A number of 1 to the limit, 1 for a limit of 0.
    pub fn up_to(&mut self, limit: u16) -> u16
        ensures value { result ≡ shown (rolled self.old.state) limit + 1 }
        ensures state { self.new.state ≡ rolled self.old.state }
        ensures low { 1 ≤ result }
        ensures high { 1 ≤ limit → result ≤ limit }
    {
        self.below(limit) + 1
    }
}
