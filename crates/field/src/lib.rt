// What discovery asks of a bus, and the ring plan that answers it.
#![tactic(auto)]

ghost use Rattle.std.specs.Prelude.{◌≡◌, ℕ};
ghost use Rattle.field.specs.Meaning.{Told, Lawful, listing, far_at, grade_at};

mod ring;

use grade::Grade;
pub use ring::RingPlan;

// Why a bridge number tells no list.
#[derive(Clone, Copy, PartialEq, Eq, Debug)]
pub struct Silence {
    pub cause: u8,
}

// What discovery asks. A live bus keeps a state between questions, so they take `&mut self`; that what it tells stays the same is a fact of
// two moments, and so a clause of each question.
pub trait Field {
    type Kind: Grade;

    // what each bridge number tells
    ghost tells: { Self → ℕ → Told Self.Kind };

    // every number tells something sound, whatever state the field is in
    ghost lawful: { (f : Self) → Lawful (tells f) };

    // The length of a list, or the cause of a silence.
    fn ask_listing(&mut self, bridge: u16) -> Result<u8, Silence>
        ensures answer { result ≡ listing (tells self.old bridge) }
        ensures same { tells self.new ≡ tells self.old };

    // The far number of the k-th line, counted from 1.
    fn ask_far(&mut self, bridge: u16, k: u16) -> Option<u16>
        ensures answer { result ≡ far_at (tells self.old bridge) k }
        ensures same { tells self.new ≡ tells self.old };

    // The grade of the k-th line, counted from 1.
    fn ask_grade(&mut self, bridge: u16, k: u16) -> Option<Self::Kind>
        ensures answer { result ≡ grade_at (tells self.old bridge) k }
        ensures same { tells self.new ≡ tells self.old };
}
