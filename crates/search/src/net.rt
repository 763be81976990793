// What a search runs over.
ghost use Rattle.std.specs.Prelude.{◌≡◌, ℕ, ◌+◌, ◌≤◌, Bool, length, Some, Option as Held, slice_index};
ghost use Rattle.theory.specs.Search.{Rule, offer};
ghost use Rattle.search.specs.Marks.{marks};

// Lines among bridges 1 to n that hand labels on. Labels lie in working memory as numbers.
pub trait Net {
    type Label: Copy;

    // Whether a label is at most another: no std order, since labels that rank alike may differ.
    ghost le: { Self.Label → Self.Label → Bool };

    // The label that a number stands for, if any.
    ghost read: { Self → ℕ → Held Self.Label };

    // What the line from one bridge to another hands on, if there is one.
    ghost rule: { Self → Rule Self.Label };

    // How many bridges there are.
    ghost bridges: { Self → ℕ };

    // What the lines keep: each net says it of itself, so it is no type's invariant.
    ghost sound: { Self → Type 0 };

    fn label_of(&self, number: u16) -> Option<Self::Label>
        ensures { result ≡ read self.now number };

    fn at_most(&self, a: Self::Label, b: Self::Label) -> bool
        ensures { result ≡ le a b };

    // A bridge of this label makes its offers along its lines.
    fn offer_from(&self, labels: &mut [u16], ways: &mut [u16], bridge: u16, label: Self::Label)
        requires sound { sound self.now }
        requires labels { length labels.old ≡ bridges self.now + 1 }
        requires ways { length ways.old ≡ bridges self.now + 1 }
        requires bridge { (1 ≤ bridge) × (bridge ≤ bridges self.now) }
        requires label { read self.now (slice_index labels.old bridge) ≡ Some label }
        ensures { marks (read self.now) labels.new ways.new ≡ (λ v. offer le bridge label (rule self.now bridge v) (marks (read self.now) labels.old ways.old v)) };
}
