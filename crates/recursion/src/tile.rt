// A tile of a square block: at most 16 by 16 words, which are read into an array and stored turned.
ghost use Rattle.std.specs.Prelude.{◌+◌, ◌≤◌};

// The side of a tile.
pub(crate) const SIDE: usize = 16;

// The words of a whole tile.
pub(crate) const WORDS: usize = SIDE * SIDE;

// The words of a tile, its rows SIDE words apart.
pub(crate) type Words = [u32; WORDS];

// The place of a tile in a block of so many rows and columns.
#[derive(Clone, Copy)]
pub(crate) struct Tile {
    pub(crate) side: usize,
    pub(crate) row: usize,
    pub(crate) column: usize,
    pub(crate) height: usize,
    pub(crate) width: usize,
    pub(crate) ghost rows_inside: { row + height ≤ side },
    pub(crate) ghost columns_inside: { column + width ≤ side },
    pub(crate) ghost high: { height ≤ 16 },
    pub(crate) ghost broad: { width ≤ 16 },
}

impl Tile {
    ghost use Rattle.std.specs.Prelude.{◌≡◌, ◌-◌, ◌*◌, ◌<◌, length, min, get_or};
    ghost use Rattle.moves.specs.Stretch.{Stretch};
    ghost use Rattle.recursion.specs.PrivateTiles.{TileAt, Mirrors, Lifted, Stored};

    // The tile at a row and a column, as far as the block goes.
    pub(crate) fn at(side: usize, row: usize, column: usize) -> Tile
        requires { (row < side) × (column < side) }
        ensures { TileAt side row column result }
    {
        Tile {
            side,
            row,
            column,
            height: SIDE.min(side - row),
            width: SIDE.min(side - column),
        }
    }

    // The tile on the other side of the diagonal.
    pub(crate) fn mirrored(self) -> Tile
        ensures { Mirrors self result }
    {
        Tile {
            side: self.side,
            row: self.column,
            column: self.row,
            height: self.width,
            width: self.height,
        }
    }

    // Reads the tile into the rows of an array.
    pub(crate) fn lift(self, words: &mut Words, s: &[u32])
        requires { length s.now ≡ self.side * self.side }
        ensures { Lifted self.side self.row self.column self.height self.width s.now words.new }
    {
        for r in 0..self.height {
            let to = r * SIDE;
            let from = (self.row + r) * self.side + self.column;
            words[to..to + self.width].copy_from_slice(&s[from..from + self.width]);
        }
    }

    // Row r of the tile receives column r of an array.
    fn store_row(self, s: &mut [u32], words: &Words, r: usize)
        requires { (length s.old ≡ self.side * self.side) × (r < self.height) }
        ensures { Stretch ((self.row + r) * self.side + self.column) self.width (λ u. get_or words.now (u * 16 + r) 0) s.old s.new }
    {
        let to = (self.row + r) * self.side + self.column;
        for (u, word) in s[to..to + self.width].iter_mut().enumerate() {
            *word = words[u * SIDE + r];
        }
    }

    // Stores the columns of an array as the rows of the tile.
    pub(crate) fn store(self, s: &mut [u32], words: &Words)
        requires { length s.old ≡ self.side * self.side }
        ensures { Stored self.side self.row self.column self.height self.width words.now s.old s.new }
    {
        for r in 0..self.height {
            self.store_row(s, words, r);
        }
    }
}
