// The reader of a run: the bytes of its records, lent, and a position in them.
ghost use Rattle.std.specs.Prelude.{◌≡◌, ◌+◌, MatchOption, MatchResult, drop, length, take};
ghost use Rattle.noddyfir.specs.Run.{Broken, UsedUp, Whole, next_at};

use big_endian::big_endian2;

#[derive(Clone, Copy)]
pub struct Reader<'a> {
    src: &'a [u8],
    at: usize,
}

// Bytes at the end that are no whole record.
#[derive(Clone, Copy, Debug, PartialEq, Eq)]
pub struct BrokenTail;

impl<'a> Reader<'a> {
    pub fn new(src: &'a [u8], at: usize) -> Reader<'a>
        ensures { (result.src ≡ src.entry) × (result.at ≡ at) }
    {
        Reader { src, at }
    }

    // The record at the position, if bytes are left.
    pub fn next(self) -> Option<Result<&'a [u8], BrokenTail>>
        ensures { MatchOption result (next_at self.entry.src.now self.entry.at ≡ UsedUp) (λ found. MatchResult found (λ r. (next_at self.entry.src.now self.entry.at ≡ Whole (length r.now)) × (r.now ≡ take (length r.now) (drop self.entry.at self.entry.src.now))) (λ _. next_at self.entry.src.now self.entry.at ≡ Broken)) }
    {
        if self.src.len() <= self.at {
            return None;
        }
        let left = self.src.len() - self.at;
        if left < 2 {
            return Some(Err(BrokenTail));
        }
        let size = 2 + big_endian2(self.src, self.at);
        if size > left {
            return Some(Err(BrokenTail));
        }
        Some(Ok(&self.src[self.at..self.at + size]))
    }
}
