// A bridge's list, read along its chain.
ghost use Rattle.std.specs.Prelude.{◌≡◌, length};
ghost use Rattle.field.specs.Meaning.{nth};
ghost use Rattle.stored.specs.Stored.{records, base_of, next_in, chain, chained};
ghost use Rattle.stored.specs.Marks.{first_of, line_of};

use crate::layout::{Record, Shaped};

impl Shaped<'_> {
    // How many records a chain has.
    pub fn chain_length(&self, first: u16) -> u8
        ensures { result ≡ length (chain (next_in self.now.bytes.now (base_of self.now.bytes.now)) (records self.now.bytes.now) 255 first) }
    {
        let mut index = first;
        for passed in 0..255u8 {
            let Some(record) = self.record(index) else {
                return passed;
            };
            index = record.next;
        }
        255
    }

    // The k-th record of a chain, counted from 1.
    fn chain_record(&self, first: u16, k: u16) -> Option<Record>
        ensures { result ≡ nth (chained self.now.bytes.now (base_of self.now.bytes.now) (records self.now.bytes.now) first) k }
    {
        let mut index = first;
        for position in 1..=255u16 {
            let record = self.record(index)?;
            if position == k {
                return Some(record);
            }
            index = record.next;
        }
        None
    }

    // The head of a bridge's chain, if the bridge has a list.
    pub fn first(&self, bridge: u16) -> Option<u16>
        ensures { result ≡ first_of self.now.bytes.now bridge }
    {
        if !(1..=self.bridge_count()).contains(&bridge) {
            return None;
        }
        Some(self.head(bridge))
    }

    // The k-th record of a bridge's chain, counted from 1.
    pub fn line(&self, bridge: u16, k: u16) -> Option<Record>
        ensures { result ≡ line_of self.now.bytes.now bridge k }
    {
        let first = self.first(bridge)?;
        self.chain_record(first, k)
    }
}
