// A plan of bridges in a ring, all lines of one grade.
ghost use Rattle.std.specs.Prelude.{◌≡◌, ◌≤◌, ◌&&◌, if◌then◌else◌, nat_le};
ghost use Rattle.grade.specs.Told.{told, answers, refused};
ghost use Rattle.field.specs.Ring.{next_of, before_of, ring_tells};
ghost use Rattle.field.specs.Laws.{ring_lawful};

use crate::{Field, Silence};
use grade::{Grade, Refusal};

#[derive(Drop)]
pub struct RingPlan<G> {
    size: u16,
    grade: G,
    ghost least: { 2 ≤ size },
    ghost most: { size ≤ 256 },
}

impl<G: Grade> RingPlan<G> {
    // A ring of `size` bridges, 2 to 256.
    pub fn new(size: u16, grade: G) -> Result<RingPlan<G>, Refusal>
        ensures { told (λ p. ring_tells p.size p.grade) result ≡ (if nat_le 2 size && nat_le size 256 then answers (ring_tells size grade) else refused 16) }
    {
        if !(2..=256).contains(&size) {
            return Err(Refusal::WrongSize);
        }
        Ok(RingPlan { size, grade })
    }

    // Whether a bridge is one of the ring's.
    fn holds(&self, bridge: u16) -> bool
        ensures { result ≡ (nat_le 1 bridge && nat_le bridge self.now.size) }
    {
        (1..=self.size).contains(&bridge)
    }

    // The bridge after this one around the ring.
    fn next(&self, bridge: u16) -> u16
        requires { bridge ≤ self.now.size }
        ensures { result ≡ next_of self.now.size bridge }
    {
        if bridge == self.size { 1 } else { bridge + 1 }
    }

    // The bridge before this one around the ring.
    fn before(&self, bridge: u16) -> u16
        requires { 1 ≤ bridge }
        ensures { result ≡ before_of self.now.size bridge }
    {
        if bridge == 1 { self.size } else { bridge - 1 }
    }
}

impl<G: Grade> Field for RingPlan<G> {
    type Kind = G;

    ghost tells = { λ p. ring_tells p.size p.grade };

    ghost lawful = { λ p. ring_lawful p.size p.grade p.most };

    fn ask_listing(&mut self, bridge: u16) -> Result<u8, Silence> {
        if !self.holds(bridge) {
            return Err(Silence { cause: 1 });
        }
        Ok(if self.size == 2 { 1 } else { 2 })
    }

    fn ask_far(&mut self, bridge: u16, k: u16) -> Option<u16> {
        if !self.holds(bridge) {
            return None;
        }
        match k {
            1 => Some(self.next(bridge)),
            2 if self.size != 2 => Some(self.before(bridge)),
            _ => None,
        }
    }

    fn ask_grade(&mut self, bridge: u16, k: u16) -> Option<G> {
        if !self.holds(bridge) {
            return None;
        }
        match k {
            1 => Some(self.grade),
            2 if self.size != 2 => Some(self.grade),
            _ => None,
        }
    }
}
