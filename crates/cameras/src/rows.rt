// Rows of a block closed up over a column, or opened for one, a run at a time: run r is the n words from behind column k of row r up to column
// k of the next row, in a block of n + 1 columns. Most runs move in sixteens, which take words past the run along: those are overwritten
// later, and none of those that they overwrite is still to be read. The first few runs move too short a way for that, and the last few that close
// may lie too near to the buffer's end: those move by themselves. Each kind is a range of its own, so that no run is asked which it is.
ghost use Rattle.cameras.specs.PrivateGap.{Placed};

// Where a column stands that is taken out or put in: before column k of the n columns of the block without it.
#[derive(Clone, Copy)]
pub(crate) struct Gap {
    pub n: usize,
    pub k: usize,
    ghost placed: { Placed n k },
}

// The runs from low up to high, and how many words each takes along: the n of a run, or these in sixteens.
#[derive(Clone, Copy)]
struct Runs {
    pub low: usize,
    pub high: usize,
    pub gap: Gap,
    pub wide: usize,
}

impl Runs {
    ghost use Rattle.cameras.specs.Private.{RunsClose, RunsClosed, RunsOpen, RunsOpened};

    // The runs close up, the first first.
    fn close(self, buf: &mut [u32])
        requires { RunsClose self buf.old }
        ensures { RunsClosed self.low self.high self.gap.n self.gap.k buf.old buf.new }
    {
        let Gap { n, k } = self.gap;
        for r in self.low..self.high {
            let to = r * n + k;
            moves::fall(buf, to, to + r + 1, self.wide);
        }
    }

    // The runs open, the last first, and the word of each row is stored.
    fn open(self, buf: &mut [u32], column: &[u32])
        requires { RunsOpen self column.now buf.old }
        ensures { RunsOpened self.low self.high self.gap.n self.gap.k column.now buf.old buf.new }
    {
        let Gap { n, k } = self.gap;
        // Kept: r counts the runs in the buffer, from the last down. A walk over these words of the column would count from 0, and add low to each.
        for r in (self.low..self.high).rev() {
            let from = r * n + k;
            let end = from + n;
            moves::rise(buf, end + r + 1 - self.wide, end - self.wide, self.wide);
            buf[from + r] = column[r];
        }
    }
}

impl Gap {
    ghost use Rattle.std.specs.Prelude.{◌≡◌, suc, ◌+◌, ◌*◌, ◌<◌, ◌≤◌, length};
    ghost use Rattle.cameras.specs.Columns.{Added};
    ghost use Rattle.cameras.specs.Private.{RunsClosed, RunsOpened, Closed};

    pub(crate) fn new(n: usize, k: usize) -> Gap
        requires { Placed n k }
        ensures { (result.n ≡ n) × (result.k ≡ k) }
    {
        Gap { n, k }
    }

    // How many of the first runs move too short a way for sixteens: past them, those reach no further than the run and the way that it moves.
    fn few_runs(self, wide: usize) -> usize
        requires { (self.n ≤ wide) × (wide < self.n + 16) }
        ensures { (wide ≤ self.n + result + 1) × (result < 15) }
    {
        wide.saturating_sub(self.n + 1)
    }

    // How many of the last runs that close lie too near to the buffer's end for sixteens: none, unless the column is one of the last.
    fn ending_runs(self, few: usize) -> usize
        requires { few < 15 }
        ensures { self.k + few ≤ self.n + result * suc self.n }
    {
        if self.k + few <= self.n {
            return 0;
        }
        few
    }

    // The runs before the last row close up, the first first. A row alone has none, and asking spares it the arithmetic of the ranges.
    fn close_runs(self, buf: &mut [u32], last: usize)
        requires { suc last * suc self.n ≤ length buf.old }
        ensures { RunsClosed 0 last self.n self.k buf.old buf.new }
    {
        if last == 0 {
            return;
        }
        let wide = self.n.next_multiple_of(16);
        let few = self.few_runs(wide);
        let low = few.min(last);
        let high = last - self.ending_runs(few).min(last - low);
        let first = Runs {
            low: 0,
            high: low,
            gap: self,
            wide: self.n,
        };
        first.close(buf);
        let middle = Runs {
            low,
            high,
            gap: self,
            wide,
        };
        middle.close(buf);
        if high < last {
            let ending = Runs {
                low: high,
                high: last,
                gap: self,
                wide: self.n,
            };
            ending.close(buf);
        }
    }

    // The rows of a block of n + 1 columns close up over column k, the first run first.
    pub(crate) fn close(self, buf: &mut [u32], frames: usize)
        requires { (0 < frames) × (frames * suc self.n ≤ length buf.old) }
        ensures { Closed frames self.n self.k buf.old buf.new }
    {
        let last = frames - 1;
        self.close_runs(buf, last);
        let to = last * self.n + self.k;
        moves::fall(buf, to, to + frames, self.n - self.k);
    }

    // The runs before the last row open, the last first. Where k is 0, one run more moves by itself, since a word too few stands before it.
    fn open_runs(self, buf: &mut [u32], last: usize, column: &[u32])
        requires { (last < length column.now) × (suc last * suc self.n ≤ length buf.old) }
        ensures { RunsOpened 0 last self.n self.k column.now buf.old buf.new }
    {
        if last == 0 {
            return;
        }
        let wide = self.n.next_multiple_of(16);
        let few = self.few_runs(wide);
        let low = (few + 1 - self.k.min(1)).min(last);
        let ending = Runs {
            low,
            high: last,
            gap: self,
            wide,
        };
        ending.open(buf, column);
        let first = Runs {
            low: 0,
            high: low,
            gap: self,
            wide: self.n,
        };
        first.open(buf, column);
    }

    // The rows of a block of n columns open for the words of a column at k, the last row first.
    pub(crate) fn open(self, buf: &mut [u32], frames: usize, column: &[u32])
        requires { (0 < frames) × (frames * suc self.n ≤ length buf.old) × (length column.now ≡ frames) }
        ensures { Added frames self.n self.k column.now buf.old buf.new }
    {
        let last = frames - 1;
        let from = last * self.n + self.k;
        moves::rise(buf, from + frames, from, self.n - self.k);
        buf[from + last] = column[last];
        self.open_runs(buf, last, column);
    }
}
