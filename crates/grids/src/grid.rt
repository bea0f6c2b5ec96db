// A block of chunks, and where each place of it receives its chunk from.
ghost use Rattle.cycles.specs.Private.{Small, Reciprocal};

// An inverse is counted in parts of one, of which one has 2 to this many.
const SCALE_BITS: u32 = 40;

// A block of m rows and n columns of chunks, how many words a chunk has, and the inverse of m that a step multiplies by.
#[derive(Clone, Copy)]
pub(crate) struct Grid {
    pub m: usize,
    pub n: usize,
    pub inverse: usize,
    pub chunk: usize,
    ghost small: { Small n m },
    ghost reciprocal: { Reciprocal m inverse },
}

impl Grid {
    ghost use Rattle.std.specs.Prelude.{◌≡◌, ◌*◌, ◌<◌, ◌≤◌};
    ghost use Rattle.cycles.specs.Cycles.{takes};
    ghost use Rattle.grids.specs.Private.{mirror, fold};

    // The inverse of m is 2 to the 40th by m, rounded down, and one more.
    pub(crate) fn new(m: usize, n: usize, chunk: usize) -> Grid
        requires { (0 < m) × (0 < n * m) × (n * m ≤ 1048576) }
        ensures { (result.m ≡ m) × (result.n ≡ n) × (result.chunk ≡ chunk) }
    {
        Grid {
            m,
            n,
            inverse: (1 << SCALE_BITS) / m + 1,
            chunk,
        }
    }

    // How many places the block has.
    pub(crate) fn places(self) -> usize
        ensures { result ≡ self.n * self.m }
    {
        self.n * self.m
    }

    // The place whose chunk the turn takes to place p: n times p modulo nm - 1, which is counted off once for each m places.
    // Kept: beside the like step of crate cycle_lists: one step for both would be a public function with a `requires`, which this project does not have.
    pub(crate) fn source(self, p: usize) -> usize
        requires { p < self.n * self.m }
        ensures { result ≡ takes self.n self.m p }
    {
        let column = (p * self.inverse) >> SCALE_BITS;
        p * self.n - column * (self.n * self.m - 1)
    }

    // The place as far from the end as p from the beginning. Its source mirrors the source of p, so that both go along by one step.
    pub(crate) fn mirrored(self, p: usize) -> usize
        requires { p < self.n * self.m }
        ensures { result ≡ mirror (self.n * self.m) p }
    {
        self.n * self.m - 1 - p
    }

    // The lesser of a place and its mirrored one, which stands for both.
    pub(crate) fn folded(self, p: usize) -> usize
        requires { p < self.n * self.m }
        ensures { result ≡ fold (self.n * self.m) p }
    {
        moves::smaller(p, self.mirrored(p))
    }
}
