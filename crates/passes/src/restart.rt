// A turn in stages: two a line, into scratch and back, then the clearing. Each stage is counted in the progress word after its words.
ghost use Rattle.std.specs.Prelude.{◌≡◌, ◌+◌, ◌*◌, ◌≤◌};
ghost use Rattle.passes.specs.Lines.{line_count};
ghost use Rattle.passes.specs.PrivateScratch.{Mapped, StageStored, GoneOn, stage_words};

use crate::rows::Rows;
use crate::sides::GroupedSides;

impl GroupedSides {
    // How many stages a turn has.
    pub(crate) fn stage_count(self) -> usize
        ensures { result ≡ line_count self.m self.n * 2 + 1 }
    {
        self.line_count() * 2 + 1
    }

    // How many words stage p stores.
    fn stage_words(self, p: usize) -> usize
        ensures { result ≡ stage_words self.m self.n p }
    {
        if p < self.line_count() * 2 {
            return self.line_of(p / 2).count;
        }
        self.longest()
    }

    // The turn goes on from the stage that the progress word names, and stops after `budget` stores.
    pub(crate) fn go_on(
        self,
        buf: &mut [u32],
        scratch: &mut [u32],
        progress: &mut u32,
        budget: usize,
    )
        requires { Mapped self.m self.n buf.old scratch.old × (progress.old ≤ line_count self.m self.n * 2 + 1) }
        ensures { GoneOn self.m self.n budget buf.old scratch.old progress.old buf.new scratch.new progress.new }
    {
        let rows = Rows::new(self);
        let mut left = budget;
        // Kept: the progress word becomes a `usize` by `as`: the library has no `From<u32>` for it, and `try_from` would answer an error that none gives.
        // Divides: for a line, to find where it starts.
        for p in *progress as usize..self.stage_count() {
            let words = self.stage_words(p);
            rows.store(buf, scratch, p, words.min(left));
            if left <= words {
                return;
            }
            *progress += 1;
            left -= words + 1;
        }
    }
}

impl Rows {
    // The first `until` words of stage p are stored.
    fn store(self, buf: &mut [u32], scratch: &mut [u32], p: usize, until: usize)
        requires mapped { Mapped self.sides.m self.sides.n buf.old scratch.old }
        requires few { until ≤ stage_words self.sides.m self.sides.n p }
        ensures { StageStored self.sides.m self.sides.n p until buf.old scratch.old buf.new scratch.new }
    {
        if self.sides.line_count() * 2 <= p {
            moves::zero(scratch, 0, until);
            return;
        }
        let line = self.sides.line_of(p / 2);
        if p % 2 == 1 {
            line.put_back(buf, scratch, until);
            return;
        }
        let lines = self.lines_of(line.pass);
        let w = lines.walk(line.index);
        line.lift::<false>(buf, scratch, w, lines.first(line.index), until);
    }
}
