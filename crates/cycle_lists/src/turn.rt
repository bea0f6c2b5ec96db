// A turn as a map of the offsets of its block: one step along a cycle, the length of a cycle, and words moved along cycles.
ghost use Rattle.std.specs.Prelude.{◌≡◌, ◌*◌, ◌<◌, length, get_or, true, false, MatchOption};
ghost use Rattle.cycles.specs.Orbit.{period};
ghost use Rattle.cycles.specs.Cycles.{takes, is_least, cycles};
ghost use Rattle.cycles.specs.Along.{handed_on, along_cycles};
ghost use Rattle.cycles.specs.Private.{Small, Reciprocal};

use std::mem;

// An inverse is counted in parts of one, of which one has 2 to this many.
const SCALE_BITS: u32 = 40;

// The turn of a block of m by n, and the inverse of n that a step multiplies by: the parts of one by n, rounded down, and one more.
#[derive(Clone, Copy)]
pub(crate) struct Turn {
    m: usize,
    n: usize,
    inverse: usize,
    ghost small: { Small m n },
    ghost reciprocal: { Reciprocal n inverse },
}

impl Turn {
    pub(crate) fn new(m: usize, n: usize) -> Turn
        requires { Small m n }
        ensures rows { result.m ≡ m }
        ensures columns { result.n ≡ n }
    {
        Turn {
            m,
            n,
            inverse: (1 << SCALE_BITS) / n + 1,
        }
    }

    // How many words the block has.
    pub(crate) fn words(self) -> usize
        ensures { result ≡ self.m * self.n }
    {
        self.m * self.n
    }

    // Where the turn takes an offset: m times it modulo mn - 1, which is counted off once for each row. The row is found by multiplication, so that
    // no step divides, and only one product waits for another.
    fn step(self, offset: usize) -> usize
        requires { offset < self.m * self.n }
        ensures { result ≡ takes self.m self.n offset }
    {
        let row = (offset * self.inverse) >> SCALE_BITS;
        offset * self.m - row * (self.m * self.n - 1)
    }

    // The length of the cycle of an offset that is its least: the cycle is followed until it is home or a smaller offset shows.
    pub(crate) fn length_from(self, least: usize) -> Option<usize>
        requires { least < self.m * self.n }
        ensures { MatchOption result
            (is_least (takes self.m self.n) (self.m * self.n) least ≡ false)
            (λ count. (is_least (takes self.m self.n) (self.m * self.n) least ≡ true) × (count ≡ period (takes self.m self.n) (self.m * self.n) least)) }
    {
        let mut at = self.step(least);
        let mut count = 1;
        // Kept: the loop counts the steps that it makes until one shows, so that there is no range and no list to go through.
        while least < at {
            at = self.step(at);
            count += 1;
        }
        if at < least {
            return None;
        }
        Some(count)
    }

    // Along one cycle: a word is put where the turn takes its offset, and the word that stood there goes on.
    fn follow(self, buf: &mut [u32], start: usize, count: usize)
        requires start_in { start < self.m * self.n }
        requires exact { length buf.old ≡ self.m * self.n }
        ensures { buf.new ≡ handed_on (takes self.m self.n) count start (get_or buf.old start 0) buf.old }
    {
        let mut at = start;
        let mut word = buf[start];
        for _ in 0..count {
            at = self.step(at);
            mem::swap(&mut buf[at], &mut word);
        }
    }

    // Along every cycle of the right list, one after the other.
    // Kept: a word becomes a `usize` by `as`: the library has no `From<u32>` for it, and `try_from` would answer an error that none gives.
    pub(crate) fn follow_all(self, list: &[u32], buf: &mut [u32])
        requires right { list.now ≡ cycles self.m self.n }
        requires exact { length buf.old ≡ self.m * self.n }
        ensures { buf.new ≡ along_cycles (takes self.m self.n) (cycles self.m self.n) buf.old }
    {
        let (pairs, _) = list.as_chunks::<2>();
        for &[start, count] in pairs {
            self.follow(buf, start as usize, count as usize);
        }
    }
}
