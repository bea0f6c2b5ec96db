// Lines: one row or column of a block, moved through scratch.
ghost use Rattle.std.specs.Prelude.{cond, ◌≡◌, ◌<◌, ◌≤◌, length, get_or};
ghost use Rattle.passes.specs.Lines.{pos_on};
ghost use Rattle.moves.specs.Stretch.{Past};
ghost use Rattle.passes.specs.PrivateScratch.{Inside, Lain, CanCopy, Copied, Filled, Lifted, LineGone};
ghost use Rattle.passes.specs.PrivateWalks.{place_at, RunFits, RunLifted, Walks};

use crate::walk;
use crate::walk::{Place, Run, Walk};

// The passes of a turn: over the columns, over the rows, over the columns again.
#[derive(Clone, Copy)]
pub(crate) enum Pass {
    First,
    Second,
    Third,
}

// A line: its pass, its row or column, where its first word stands, how far apart its words stand, how many they are.
#[derive(Clone, Copy)]
pub(crate) struct Line {
    pub pass: Pass,
    pub index: usize,
    pub start: usize,
    pub stride: usize,
    pub count: usize,
}

// Words that stand `gap` apart, from offset `from` on, and the places that they go to, `step` apart, from place `to` on.
#[derive(Clone, Copy)]
struct Strides {
    from: usize,
    gap: usize,
    to: usize,
    step: usize,
    size: usize,
}

impl Strides {
    // The words are copied one by one.
    // Kept: `step_by` takes no step of 0, which a line of one word has, so that a `zip` of it needs cases of their own.
    fn copy_words(self, source: &[u32], target: &mut [u32])
        requires { CanCopy self source.now target.old }
        ensures { Copied self source.now target.old target.new }
    {
        for t in 0..self.size {
            target[self.to + self.step * t] = source[self.from + self.gap * t];
        }
    }

    // The same; words that stand side by side and go side by side are one move.
    // Kept: `copy_from_slice` in the last case takes slices that start in their buffers, also for no word, so that it takes a test more than the loop.
    fn copy(self, source: &[u32], target: &mut [u32])
        requires { CanCopy self source.now target.old }
        ensures { Copied self source.now target.old target.new }
    {
        if self.gap != 1 {
            self.copy_words(source, target);
            return;
        }
        if self.step != 1 {
            Strides { gap: 1, ..self }.copy_words(source, target);
            return;
        }
        Strides {
            gap: 1,
            step: 1,
            ..self
        }
        .copy_words(source, target);
    }
}

// What stands for the way home, or for the other way.
fn either<const HOME: bool>(home: usize, forth: usize) -> usize
    ensures { result ≡ cond HOME home forth }
{
    if HOME { home } else { forth }
}

// Kept: `Lain` stands in four contracts, because `line_of` of specs/ makes a `Line` of any sides, which a ghost field would forbid.
// Kept: buffer and scratch stay two parameters, because a line is lifted from the one into the other and put back the other way.
impl Line {
    // Where the word of place k stands.
    fn offset_of(self, k: usize) -> usize
        requires { (self.start ≤ 16777216) × (self.stride ≤ 4096) × (k ≤ 4096) }
        ensures { result ≡ pos_on self k }
    {
        self.start + self.stride * k
    }

    // A run is lifted word by word: scratch receives the words of the places that the walk goes over, or, home, those places receive the words of the run.
    fn lift_words<const HOME: bool>(self, buf: &[u32], scratch: &mut [u32], w: Walk, run: Run)
        requires { Lain self buf.now scratch.old × RunFits w self.count run }
        ensures { RunLifted self w HOME run buf.now scratch.old scratch.new }
    {
        let mut p = run.place;
        for t in 0..run.size {
            let k = run.from + t;
            let offset = self.offset_of(either::<HOME>(k, p));
            scratch[either::<HOME>(p, k)] = buf[offset];
            p = walk::step_on(p, w.step, w.modulus);
        }
    }

    // A run is lifted; one that does not come round is copied.
    fn lift_run<const HOME: bool>(self, buf: &[u32], scratch: &mut [u32], w: Walk, run: Run)
        requires { Lain self buf.now scratch.old × RunFits w self.count run }
        ensures { RunLifted self w HOME run buf.now scratch.old scratch.new }
    {
        if w.modulus + w.step <= run.place + w.step * run.size {
            self.lift_words::<HOME>(buf, scratch, w, run);
            return;
        }
        let strides = Strides {
            from: self.offset_of(either::<HOME>(run.from, run.place)),
            gap: self.stride * either::<HOME>(1, w.step),
            to: either::<HOME>(run.place, run.from),
            step: either::<HOME>(w.step, 1),
            size: run.size,
        };
        strides.copy(buf, scratch);
    }

    // Scratch receives the first `until` words of the line, run by run: at place k the word of the place that the walk then stands at, or, home, there
    // the word of place k.
    pub(crate) fn lift<const HOME: bool>(
        self,
        buf: &[u32],
        scratch: &mut [u32],
        w: Walk,
        first: Place,
        until: usize,
    )
        requires { Lain self buf.now scratch.old × Walks w first self.count × (until ≤ self.count) }
        ensures { Lifted self (place_at w first) HOME until buf.now scratch.old scratch.new }
    {
        let mut p = first;
        let mut k = 0;
        // Kept: no other loop goes over the runs, and an iterator over them, with its state, would be longer than this loop.
        while k < until {
            let size = w.ahead(p).min(until - k);
            let run = Run {
                from: k,
                place: p.place,
                size,
            };
            self.lift_run::<HOME>(buf, scratch, w, run);
            k += size;
            p = w.after_run(p, size);
        }
    }

    // The first `until` words of scratch go back to the line.
    pub(crate) fn put_back(self, buf: &mut [u32], scratch: &[u32], until: usize)
        requires { Inside self until buf.old × (0 < self.stride) × (until ≤ length scratch.now) }
        ensures { Filled (pos_on self) (λ k. get_or scratch.now k 0) until buf.old buf.new }
    {
        let strides = Strides {
            from: 0,
            gap: 1,
            to: self.start,
            step: self.stride,
            size: until,
        };
        strides.copy(scratch, buf);
    }

    // The line moves through scratch: each place receives the word of the place that the walk stands at, or, home, sends it there.
    pub(crate) fn go<const HOME: bool>(
        self,
        buf: &mut [u32],
        scratch: &mut [u32],
        w: Walk,
        first: Place,
    )
        requires { Lain self buf.old scratch.old × Walks w first self.count }
        ensures { LineGone self (place_at w first) HOME buf.old buf.new × Past self.count scratch.old scratch.new }
    {
        self.lift::<HOME>(buf, scratch, w, first, self.count);
        self.put_back(buf, scratch, self.count);
    }
}
