// The bytes of a stored survey in shape: two counts, a head for each bridge, then the records.
ghost use Rattle.std.specs.Prelude.{◌≡◌, ◌+◌, ◌*◌, ◌≤◌, true, length, if◌then◌else◌};
ghost use Rattle.grade.specs.Told.{told, answers, refused};
ghost use Rattle.stored.specs.Stored.{well_shaped, bridges, records, head_of, base_of, u16_at, u32_at};
ghost use Rattle.stored.specs.Marks.{record_at};

use grade::Refusal;

// One record: the far bridge, the next record of its chain, and the slots.
#[derive(Clone, Copy)]
pub struct Record {
    pub far: u16,
    pub next: u16,
    pub slots: u32,
}

// Bytes whose counts are within their limits, and whose heads and records fill them.
#[derive(Clone, Copy)]
pub struct Shaped<'a> {
    bytes: &'a [u8],
    ghost in_shape: { well_shaped bytes.now ≡ true },
    ghost long: { base_of bytes.now + 8 * records bytes.now ≤ length bytes.now },
}

// The number of 2 bytes that begins at a place. One function for each width: `from_le_bytes` is no method of a trait.
fn read_u16(bytes: &[u8], at: usize) -> u16
    requires { at + 2 ≤ length bytes.now }
    ensures { result ≡ u16_at bytes.now at }
{
    u16::from_le_bytes([bytes[at], bytes[at + 1]])
}

// The number of 4 bytes that begins at a place.
fn read_u32(bytes: &[u8], at: usize) -> u32
    requires { at + 4 ≤ length bytes.now }
    ensures { result ≡ u32_at bytes.now at }
{
    u32::from_le_bytes([bytes[at], bytes[at + 1], bytes[at + 2], bytes[at + 3]])
}

// Whether the counts are within their limits, and the heads and records fill the bytes.
fn has_shape(bytes: &[u8]) -> bool
    ensures { result ≡ well_shaped bytes.now }
{
    if bytes.len() < 4 {
        return false;
    }
    let n = read_u16(bytes, 0);
    let count = read_u16(bytes, 2);
    let filled = 4 + 2 * usize::from(n) + 8 * usize::from(count);
    (1..=256).contains(&n) && count <= 1024 && bytes.len() == filled
}

impl<'a> Shaped<'a> {
    // The bytes, or the refusal of bytes out of shape.
    pub fn read(bytes: &'a [u8]) -> Result<Shaped<'a>, Refusal>
        ensures { told (λ s. s.bytes.now) result ≡ (if well_shaped bytes.now then answers bytes.now else refused 13) }
    {
        if !has_shape(bytes) {
            return Err(Refusal::WrongSurveyShape);
        }
        Ok(Shaped { bytes })
    }

    // How many bridges there are.
    pub fn bridge_count(&self) -> u16
        ensures { result ≡ bridges self.now.bytes.now }
    {
        read_u16(self.bytes, 0)
    }

    // How many records there are.
    pub fn record_count(&self) -> u16
        ensures { result ≡ records self.now.bytes.now }
    {
        read_u16(self.bytes, 2)
    }

    // The head of a bridge's chain.
    pub fn head(&self, bridge: u16) -> u16
        requires { bridge ≤ bridges self.now.bytes.now }
        ensures { result ≡ head_of self.now.bytes.now bridge }
    {
        read_u16(self.bytes, 2 + 2 * usize::from(bridge))
    }

    // The record that an index names.
    pub fn record(&self, index: u16) -> Option<Record>
        ensures { result ≡ record_at self.now.bytes.now (base_of self.now.bytes.now) (records self.now.bytes.now) index }
    {
        if !(1..=self.record_count()).contains(&index) {
            return None;
        }
        let at = 4 + 2 * usize::from(self.bridge_count()) + 8 * (usize::from(index) - 1);
        Some(Record {
            far: read_u16(self.bytes, at),
            next: read_u16(self.bytes, at + 2),
            slots: read_u32(self.bytes, at + 4),
        })
    }
}
