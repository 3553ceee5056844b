//! The sums of the stretches of a text, modulo 256.
ghost use Rattle.std.specs.Prelude.{◌≡◌, ◌≤◌, ◌%◌, sum, length, true, ℕ, List};
ghost use Rattle.blot_tag.specs.Sums.{IsSummed, sum_between};

/// A stretch of a text, and its sum modulo 256.
#[derive(Clone, Copy)]
pub(crate) struct Summed {
    pub(crate) start: usize,
    pub(crate) end: usize,
    pub(crate) sum: u8,
}

/// The sum of the bytes modulo 256.
pub(crate) fn sum_of(bytes: &[u8]) -> u8
    ensures { result ≡ sum bytes.now % 256 }
{
    let mut sum: u8 = 0;
    for byte in bytes {
        sum = sum.wrapping_add(*byte);
    }
    sum
}

impl Summed {
    /// The empty stretch at the beginning of any text.
    pub(crate) fn empty() -> Summed
        ensures { (text : List ℕ) → IsSummed text result }
    {
        Summed {
            start: 0,
            end: 0,
            sum: 0,
        }
    }

    /// Another stretch of the same text, and its sum. Where it differs from this one by fewer bytes than it has, only those
    /// are summed.
    pub(crate) fn moved(self, text: &[u8], start: usize, end: usize) -> Summed
        requires known { IsSummed text.now self }
        requires order { start ≤ end }
        requires inside { end ≤ length text.now }
        ensures summed { IsSummed text.now result }
        ensures start { result.start ≡ start }
        ensures end { result.end ≡ end }
    {
        let sum = if self.is_near(start, end) {
            self.moved_sum(text, start, end)
        } else {
            sum_of(&text[start..end])
        };
        Summed { start, end, sum }
    }

    // Whether another stretch begins within this one, and differs from it by fewer bytes than that other has.
    fn is_near(self, start: usize, end: usize) -> bool
        requires { start ≤ end }
        ensures { result ≡ true → (self.start ≤ start) × (start ≤ self.end) }
    {
        self.start <= start
            && start - self.start < end - start
            && self.end.abs_diff(end) < end - start - (start - self.start)
    }

    // The sum of another stretch, which begins within this one.
    fn moved_sum(self, text: &[u8], start: usize, end: usize) -> u8
        requires known { IsSummed text.now self }
        requires low { self.start ≤ start }
        requires high { start ≤ self.end }
        requires order { start ≤ end }
        requires inside { end ≤ length text.now }
        ensures { result ≡ sum_between text.now start end % 256 }
    {
        let kept = self.sum.wrapping_sub(sum_of(&text[self.start..start]));
        if self.end <= end {
            kept.wrapping_add(sum_of(&text[self.end..end]))
        } else {
            kept.wrapping_sub(sum_of(&text[end..self.end]))
        }
    }
}
