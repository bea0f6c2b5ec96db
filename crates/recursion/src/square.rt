// A square exchanged across its diagonal, in tiles of at most 16 by 16 words. Two tiles that mirror each other are read into arrays, row by row, and each is
// stored turned in the place of the other; a tile on the diagonal is stored turned in its own. Small squares go word by word.
ghost use Rattle.std.specs.Prelude.{◌≡◌, ◌+◌, ◌*◌, ◌<◌, ◌≤◌, length, min};
ghost use Rattle.flat.specs.Turn.{Turn};
ghost use Rattle.recursion.specs.PrivateTiles.{Across};

use crate::tile::{SIDE, Tile, WORDS, Words};

// Turns the tile on the diagonal.
fn own(s: &mut [u32], tile: Tile, words: &mut Words)
    requires { (length s.old ≡ tile.side * tile.side) × (tile.row ≡ tile.column) × (tile.height ≡ tile.width) }
    ensures { Across tile.side tile.row (tile.row + tile.height) 0 (tile.row + tile.height) s.old s.new }
{
    tile.lift(words, s);
    tile.store(s, words);
}

// A tile right of the diagonal and the one that mirrors it trade places, each turned.
fn trade(s: &mut [u32], tile: Tile, one: &mut Words, other: &mut Words)
    requires { (length s.old ≡ tile.side * tile.side) × (tile.row + tile.height ≤ tile.column) }
    ensures { Across tile.side tile.row (tile.row + tile.height) tile.column (tile.column + tile.width) s.old s.new }
{
    let mirrored = tile.mirrored();
    tile.lift(one, s);
    mirrored.lift(other, s);
    tile.store(s, other);
    mirrored.store(s, one);
}

// Exchanges the rows of the tiles at row i with the columns, from the diagonal on.
fn band(s: &mut [u32], n: usize, i: usize, one: &mut Words, other: &mut Words)
    requires { (length s.old ≡ n * n) × (i < n) }
    ensures { Across n i (min (i + 16) n) 0 n s.old s.new }
{
    own(s, Tile::at(n, i, i), one);
    // Kept: a `for` with `step_by` was tried here, and a square then takes some 4 percent longer.
    let mut j = i + SIDE;
    while j < n {
        trade(s, Tile::at(n, i, j), one, other);
        j += SIDE;
    }
}

// Exchanges an n by n block across its diagonal, in tiles.
pub(crate) fn by_tiles(s: &mut [u32], n: usize)
    requires { length s.old ≡ n * n }
    ensures { Turn n n s.old s.new }
{
    let mut one = [0; WORDS];
    let mut other = [0; WORDS];
    for i in (0..n).step_by(SIDE) {
        band(s, n, i, &mut one, &mut other);
    }
}

// Exchanges row i of an n by n block with column i, from the diagonal on.
fn cross(s: &mut [u32], n: usize, i: usize)
    requires { (length s.old ≡ n * n) × (i < n) }
    ensures { Across n i (i + 1) 0 n s.old s.new }
{
    // Kept: `swap` of the library asks which place comes first, and a small square then takes a third longer.
    for j in i + 1..n {
        let above = i * n + j;
        let below = j * n + i;
        let word = s[above];
        s[above] = s[below];
        s[below] = word;
    }
}

// Exchanges an n by n block across its diagonal, word by word.
pub(crate) fn by_words(s: &mut [u32], n: usize)
    requires { length s.old ≡ n * n }
    ensures { Turn n n s.old s.new }
{
    for i in 0..n {
        cross(s, n, i);
    }
}
