// The memory of the search before its first turn.
ghost use Rattle.std.specs.Prelude.{◌≡◌, ℕ, ◌<◌, length, if◌then◌else◌, nat_eq, slice_index};

// Writes 0 into each place.
pub fn clear(memory: &mut [u16])
    ensures { (k : ℕ) → slice_index memory.new k ≡ 0 }
{
    memory.fill(0);
}

// Only the start is labelled, by the number `top`, and no bridge is taken.
pub fn begin(labels: &mut [u16], ways: &mut [u16], taken: &mut [u16], start: u16, top: u16)
    requires { start < length labels.old }
    ensures labels { (v : ℕ) → slice_index labels.new v ≡ (if nat_eq v start then top else 0) }
    ensures ways { (v : ℕ) → slice_index ways.new v ≡ 0 }
    ensures taken { (v : ℕ) → slice_index taken.new v ≡ 0 }
{
    clear(labels);
    clear(ways);
    clear(taken);
    labels[usize::from(start)] = top;
}
