// What opening checks: the chains one after the other, and the slots.
ghost use Rattle.std.specs.Prelude.{◌≡◌, ℕ, ◌-◌, ◌≤◌, Bool, false, not, length, if◌then◌else◌, None, slice_index_or};
ghost use Rattle.grade.specs.Told.{told};
ghost use Rattle.stored.specs.Stored.{bridges, records, base_of, head_of, stored_at, next_in, lowest, wrong_slots};
ghost use Rattle.stored.specs.Marks.{record_at, follow_marks, follow_all_marks};

use crate::layout::{Record, Shaped};
use grade::{Refusal, Slots};

// The lowest of 1 to `most` that passes a test.
fn find_lowest<T: Fn(u16) -> bool>(most: u16, test: T) -> Option<u16>
    requires { (i : ℕ) → 1 ≤ i → i ≤ most → T.pre test i }
    ensures { (passes : ℕ → Bool) → ((i : ℕ) (b : Bool) → 1 ≤ i → i ≤ most → T.post test i b → b ≡ passes i) → result ≡ lowest passes most }
{
    for index in 1..=most {
        if test(index) {
            return Some(index);
        }
    }
    None
}

impl Shaped<'_> {
    // The record that an index names, unless it was met before. The marks are a second loan, passed beside the bytes: a struct of both would
    // hold a `&mut`.
    fn fresh_record(&self, index: u16, met: &[bool]) -> Option<Record>
        requires { records self.now.bytes.now ≤ length met.now }
        ensures { result ≡ (if slice_index_or met.now (index - 1) false then None else record_at self.now.bytes.now (base_of self.now.bytes.now) (records self.now.bytes.now) index) }
    {
        let record = self.record(index)?;
        if met[usize::from(index) - 1] {
            return None;
        }
        Some(record)
    }

    // Follows one chain, and marks its records as met. The number 0 ends it, as the stored format has it.
    fn follow_chain(&self, first: u16, met: &mut [bool]) -> Result<(), Refusal>
        requires { records self.now.bytes.now ≤ length met.old }
        ensures { told (λ _. met.new) result ≡ follow_marks (next_in self.now.bytes.now (base_of self.now.bytes.now)) (records self.now.bytes.now) 255 first met.old }
    {
        let mut index = first;
        for _step in 0..255u8 {
            if index == 0 {
                return Ok(());
            }
            let Some(record) = self.fresh_record(index, met) else {
                return Err(Refusal::BrokenChains { record: index });
            };
            met[usize::from(index) - 1] = true;
            index = record.next;
        }
        if index == 0 {
            Ok(())
        } else {
            Err(Refusal::BrokenChains { record: index })
        }
    }

    // Follows the chains of all bridges, one after the other.
    pub fn follow_chains(&self, met: &mut [bool]) -> Result<(), Refusal>
        requires { records self.now.bytes.now ≤ length met.old }
        ensures { told (λ _. met.new) result ≡ follow_all_marks (head_of self.now.bytes.now) (next_in self.now.bytes.now (base_of self.now.bytes.now)) (records self.now.bytes.now) (bridges self.now.bytes.now) met.old }
    {
        for bridge in 1..=self.bridge_count() {
            self.follow_chain(self.head(bridge), met)?;
        }
        Ok(())
    }

    // The lowest record on no chain.
    pub fn lowest_unmet(&self, met: &[bool]) -> Option<u16>
        requires { records self.now.bytes.now ≤ length met.now }
        ensures { result ≡ lowest (λ i. not (slice_index_or met.now (i - 1) false)) (records self.now.bytes.now) }
    {
        find_lowest(self.record_count(), |index| !met[usize::from(index) - 1])
    }

    // The lowest record with slots out of range.
    pub fn lowest_wrong_slots(&self) -> Option<u16>
        ensures { result ≡ lowest (λ i. wrong_slots (stored_at self.now.bytes.now (base_of self.now.bytes.now) i).slots) (records self.now.bytes.now) }
    {
        find_lowest(self.record_count(), |index| self.has_wrong_slots(index))
    }

    // Whether a record's slots are out of range.
    fn has_wrong_slots(&self, index: u16) -> bool
        requires { (1 ≤ index) × (index ≤ records self.now.bytes.now) }
        ensures { result ≡ wrong_slots (stored_at self.now.bytes.now (base_of self.now.bytes.now) index).slots }
    {
        let Some(record) = self.record(index) else {
            unreachable!()
        };
        Slots::new(record.slots).is_err()
    }
}
