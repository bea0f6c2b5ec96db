// Bands of a block, as many rows as a tile is high: lifted into scratch and laid back, from tiles of one width to tiles of another. Tiles at least as
// wide as the block are its rows, so that a block goes into tiles and back by one way.
ghost use Rattle.std.specs.Prelude.{◌+◌, ◌*◌, ◌<◌, ◌≤◌, length, get_or};
ghost use Rattle.moves.specs.Stretch.{Stretch};
ghost use Rattle.tiles.specs.Private.{Aligned, RowsAt, BandFits, PieceAt, BandLaidTo, PieceLaid, BandMoved, Converts, BlockMoved, Converted};

// A block that is tiled anew: its sides, how high its tiles are, and how wide before and afterwards.
#[derive(Clone, Copy)]
pub(crate) struct Tiling {
    pub rows: usize,
    pub columns: usize,
    pub height: usize,
    pub from: usize,
    pub to: usize,
}

// A band: where its first word stands, its rows and columns, and how wide its tiles are before and afterwards.
#[derive(Clone, Copy)]
struct Band {
    pub first: usize,
    pub rows: usize,
    pub columns: usize,
    pub from: usize,
    pub to: usize,
}

// Rows of a tile: where the first stands in the band, and how far apart they are.
#[derive(Clone, Copy)]
struct Rows {
    pub at: usize,
    pub step: usize,
}

// The rows from column j on of the tile that it lies in, in a band of so many rows and columns.
fn rows_from(rows: usize, columns: usize, width: usize, j: usize) -> Rows
    requires { (j < columns) × Aligned columns width j × (rows * columns ≤ 1048576) }
    ensures { RowsAt rows columns width j result }
{
    if columns <= width {
        return Rows {
            at: j,
            step: columns,
        };
    }
    let step = moves::smaller(width, columns - j);
    Rows { at: rows * j, step }
}

// Word to + u of the buffer receives word from + u of the other one. Word by word, which the compiler makes wide: from about sixteen words on, up to the
// 64 that a tile has in a row, that takes less time than the pieces of moves::copy.
fn copy_run(buf: &mut [u32], to: usize, other: &[u32], from: usize, count: usize)
    requires { (to + count ≤ length buf.old) × (from + count ≤ length other.now) }
    ensures { Stretch to count (λ u. get_or other.now (from + u) 0) buf.old buf.new }
{
    // Kept: `copy_from_slice` and `iter_mut().enumerate()` were tried. With the first, tiles of 8 by 8 take 30 to 40 percent more time; with the second,
    // tiles of 64 by 4 take up to 7 percent more, and tiles of 64 by 1 up to 24.
    for u in 0..count {
        buf[to + u] = other[from + u];
    }
}

// The columns from j on, all of one tile, receive their words from scratch, where the band stands.
fn lay_piece(buf: &mut [u32], scratch: &[u32], b: Band, j: usize, wide: usize)
    requires { BandFits b buf.old scratch.now × PieceAt b j wide }
    ensures { PieceLaid b j wide (λ p. get_or scratch.now p 0) buf.old buf.new }
{
    let from = rows_from(b.rows, b.columns, b.from, j);
    let to = rows_from(b.rows, b.columns, b.to, j);
    for x in 0..b.rows {
        copy_run(
            buf,
            b.first + to.at + x * to.step,
            scratch,
            from.at + x * from.step,
            wide,
        );
    }
}

// The columns of the band receive their words from scratch, tile by tile of the narrower tiles.
fn lay(buf: &mut [u32], scratch: &[u32], b: Band)
    requires { BandFits b buf.old scratch.now }
    ensures { BandLaidTo b b.columns (λ p. get_or scratch.now p 0) buf.old buf.new }
{
    let step = moves::smaller(b.from, b.to);
    for j in (0..b.columns).step_by(step) {
        lay_piece(buf, scratch, b, j, moves::smaller(step, b.columns - j));
    }
}

// The band moves: it is lifted into scratch and laid back.
fn move_band(buf: &mut [u32], scratch: &mut [u32], b: Band)
    requires { BandFits b buf.old scratch.old }
    ensures { BandMoved b buf.old buf.new scratch.old scratch.new }
{
    moves::copy(scratch, 0, buf, b.first, b.rows * b.columns);
    lay(buf, scratch, b);
}

// The block moves, band after band.
fn move_bands(buf: &mut [u32], scratch: &mut [u32], t: Tiling)
    requires { Converts t buf.old scratch.old }
    ensures { BlockMoved t buf.old buf.new scratch.old scratch.new }
{
    for i in (0..t.rows).step_by(t.height) {
        let rows = moves::smaller(t.height, t.rows - i);
        let b = Band {
            first: i * t.columns,
            rows,
            columns: t.columns,
            from: t.from,
            to: t.to,
        };
        move_band(buf, scratch, b);
    }
}

// The block moves, and scratch is left zero.
pub(crate) fn convert(buf: &mut [u32], scratch: &mut [u32], t: Tiling)
    requires { Converts t buf.old scratch.old }
    ensures { Converted t buf.old buf.new scratch.old scratch.new }
{
    move_bands(buf, scratch, t);
    moves::zero(scratch, 0, t.height * t.columns);
}
