//! Ranges of the keys of rows.

ghost use Rattle.std.specs.Prelude.{◌≡◌, ◌≤ℤ◌, IsSome, IfSome, ◌↔◌};

/// The keys from `low` to `high`, both included. A range is never empty.
#[derive(Clone, Copy, PartialEq, Eq, Debug)]
pub struct KeyRange {
    pub low: i64,
    pub high: i64,
    ghost ordered: { low ≤ℤ high },
}

impl KeyRange {
    ghost use Rattle.std.specs.Int.{int_max, int_min};

    /// The keys from `low` to `high`; `None` if `low` is above `high`.
    pub fn new(low: i64, high: i64) -> Option<KeyRange>
        ensures valid { IsSome result ↔ (low ≤ℤ high) }
        ensures low { IfSome result (λ r. r.low ≡ low) }
        ensures high { IfSome result (λ r. r.high ≡ high) }
    {
        if low <= high {
            Some(KeyRange { low, high })
        } else {
            None
        }
    }

    /// All keys.
    pub fn all() -> KeyRange
        ensures low { result.low ≡ i64.MIN }
        ensures high { result.high ≡ i64.MAX }
    {
        KeyRange {
            low: i64::MIN,
            high: i64::MAX,
        }
    }

    /// The keys in both ranges; `None` if they have no key in common.
    pub fn common(self, other: KeyRange) -> Option<KeyRange>
        ensures valid { IsSome result ↔ (int_max self.low other.low ≤ℤ int_min self.high other.high) }
        ensures low { IfSome result (λ r. r.low ≡ int_max self.low other.low) }
        ensures high { IfSome result (λ r. r.high ≡ int_min self.high other.high) }
    {
        KeyRange::new(self.low.max(other.low), self.high.min(other.high))
    }

    /// The smallest range that contains both.
    pub fn hull(self, other: KeyRange) -> KeyRange
        ensures low { result.low ≡ int_min self.low other.low }
        ensures high { result.high ≡ int_max self.high other.high }
    {
        KeyRange {
            low: self.low.min(other.low),
            high: self.high.max(other.high),
        }
    }
}
