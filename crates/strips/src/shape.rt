// The shape of a block, with what is known of every block that is turned.
ghost use Rattle.std.specs.Prelude.{◌*◌, ◌<◌, ◌≤◌};

// m rows and n columns of elements of g words.
#[derive(Clone, Copy)]
pub(crate) struct Shape {
    pub(crate) m: usize,
    pub(crate) n: usize,
    pub(crate) g: usize,
    pub(crate) ghost rows: { 0 < m },
    pub(crate) ghost columns: { 0 < n },
    pub(crate) ghost words: { 0 < g },
    pub(crate) ghost far_rows: { m ≤ 4096 },
    pub(crate) ghost far_columns: { n ≤ 4096 },
    pub(crate) ghost few: { m * n * g ≤ 1048576 },
}

impl Shape {
    ghost use Rattle.std.specs.Prelude.{◌≡◌, true, false, ◌⊎◌};
    ghost use Rattle.strips.specs.PrivateShapes.{size, Line};

    // How many words the block has.
    pub(crate) fn size(self) -> usize
        ensures { result ≡ size self }
    {
        self.m * self.n * self.g
    }

    // Whether the block has only one line, so that its turn leaves every word where it is.
    pub(crate) fn is_line(self) -> bool
        ensures { (result ≡ true → Line self) × (result ≡ false → (self.m ≡ 1 → ⊥) × (self.n ≡ 1 → ⊥)) }
    {
        self.m == 1 || self.n == 1
    }
}
