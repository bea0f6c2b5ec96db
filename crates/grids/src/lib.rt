// A block of chunks turned within its buffer.
#![tactic(auto)]

mod chunks;
mod grid;
mod marks;

ghost use Rattle.std.specs.Prelude.{true, false, ◌≡◌, ◌<◌, ◌≤◌};
ghost use Rattle.grids.specs.Promises.{Turnable, GridPromise};

// Whether a side is 0 or above 4,096.
fn bad_side(side: usize) -> bool
    ensures { (result ≡ false → (0 < side) × (side ≤ 4096)) × (result ≡ true → (0 < side → 4096 < side)) }
{
    side == 0 || 4096 < side
}

// Whether a block cannot be turned.
fn refused(buf: &[u32], marks: &[u32], m: usize, n: usize, chunk: usize) -> bool
    ensures { (result ≡ false → Turnable m n chunk buf.now marks.now) × (result ≡ true → (Turnable m n chunk buf.now marks.now → ⊥)) }
{
    if bad_side(m) || bad_side(n) {
        return true;
    }
    let places = m * n;
    1048576 < places
        || chunk == 0
        || buf.len() / places < chunk
        || marks.len() < places.div_ceil(64)
}

// Turns the block of m rows and n columns of chunks that the buffer begins with, and leaves the marks zero: false, and nothing changed, where the
// block cannot be turned.
// Kept: the promise and the refuted rows of `turn_grid` speak of a bool; no document gives this refusal a number that a `Result` could hold.
pub fn turn_grid(buf: &mut [u32], marks: &mut [u32], m: usize, n: usize, chunk: usize) -> bool
    ensures { GridPromise m n chunk buf.old marks.old result buf.new marks.new }
{
    if refused(buf, marks, m, n, chunk) {
        return false;
    }
    chunks::turned(buf, marks, m, n, chunk);
    moves::zero(marks, 0, marks.len());
    true
}
