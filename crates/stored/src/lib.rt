// A survey stored as bytes: opening it, and the three questions of a field.
#![tactic(auto)]

ghost use Rattle.std.specs.Prelude.{◌≡◌};
ghost use Rattle.grade.specs.Told.{told};
ghost use Rattle.stored.specs.Laws.{stored_lawful};
ghost use Rattle.stored.specs.Stored.{stored_tells, opened, OpensWhole};

mod following;
mod layout;
mod lists;

use field::{Field, Silence};
use grade::{Refusal, Slots};
use layout::Shaped;

// A survey that was opened.
#[derive(Drop)]
pub struct StoredSurvey<'a> {
    shaped: Shaped<'a>,
}

impl<'a> StoredSurvey<'a> {
    // Opens a stored survey, or refuses one that is wrong.
    pub fn open(bytes: &'a [u8]) -> Result<StoredSurvey<'a>, Refusal>
        ensures opened { told (λ s. stored_tells s.shaped.bytes.now) result ≡ opened bytes.now }
        ensures whole { OpensWhole bytes.now }
    {
        let shaped = Shaped::read(bytes)?;
        // An array, not a Vec or a set: the planner has no heap.
        let mut met = [false; 1024];
        shaped.follow_chains(&mut met)?;
        if let Some(record) = shaped.lowest_unmet(&met) {
            return Err(Refusal::BrokenChains { record });
        }
        if let Some(record) = shaped.lowest_wrong_slots() {
            return Err(Refusal::WrongGrade { record });
        }
        Ok(StoredSurvey { shaped })
    }
}

impl Field for StoredSurvey<'_> {
    type Kind = Slots;

    ghost tells = { λ s. stored_tells s.shaped.bytes.now };

    ghost lawful = { λ s. stored_lawful s.shaped.bytes.now };

    fn ask_listing(&mut self, bridge: u16) -> Result<u8, Silence> {
        let first = self.shaped.first(bridge).ok_or(Silence { cause: 1 })?;
        Ok(self.shaped.chain_length(first))
    }

    fn ask_far(&mut self, bridge: u16, k: u16) -> Option<u16> {
        let record = self.shaped.line(bridge, k)?;
        Some(record.far)
    }

    fn ask_grade(&mut self, bridge: u16, k: u16) -> Option<Slots> {
        let record = self.shaped.line(bridge, k)?;
        Some(Slots::holding(record.slots))
    }
}
