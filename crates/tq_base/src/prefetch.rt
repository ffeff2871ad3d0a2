//! Prefetching of values and of their boxes, which may lie anywhere in memory. The pointers to up to 256 values are
//! gathered without reading the values. Then a loop that does nothing else reads the values, so that the processor
//! overlaps many cache misses.

use crate::short_text::SHORT;
use crate::value::Value;

// The most values that are prefetched together.
pub(crate) const PREFETCHED: usize = 256;

// Values to prefetch.
#[derive(Drop)]
pub(crate) struct Prefetch<'a> {
    values: [&'a Value; PREFETCHED],
    len: usize,
}

impl<'a> Prefetch<'a> {
    // An empty list; `filler` only fills the array.
    pub(crate) fn new(filler: &'a Value) -> Prefetch<'a> {
        Prefetch {
            values: [filler; PREFETCHED],
            len: 0,
        }
    }

    // Adds a value if there is room.
    pub(crate) fn push(&mut self, value: &'a Value) {
        let len = self.len;
        if len < PREFETCHED {
            let slots = &mut self.values[..];
            slots[len] = value;
            self.len = len + 1;
        }
    }

    fn count_boxed(&self) -> usize {
        let mut count: usize = 0;
        'values: for value in self.values.iter().take(self.len) {
            count = count.wrapping_add(value.is_boxed() as usize);
        }
        count
    }

    // The length of the longest text among the values; short texts count as 14 bytes. Reads each box.
    pub(crate) fn longest(&self) -> usize {
        let mut longest = SHORT;
        if self.count_boxed() == 0 {
            return longest;
        }
        'values: for value in self.values.iter().take(self.len) {
            longest = longest.max(value.boxed_len());
        }
        longest
    }

    // The length of the longest text among the values, if only bytes after the first 14 are read next: a medium text has
    // those in the value, so its box is not read.
    pub(crate) fn longest_after_tail(&self) -> usize {
        let mut longest = SHORT;
        if self.count_boxed() == 0 {
            return longest;
        }
        'values: for value in self.values.iter().take(self.len) {
            longest = longest.max(value.len_after_tail());
        }
        longest
    }
}
