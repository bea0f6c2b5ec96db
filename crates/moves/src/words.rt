// Words moved, zeroed and traded one by one.
ghost use Rattle.std.specs.Prelude.{◌+◌, ◌≤◌, length, get_or};
ghost use Rattle.moves.specs.Stretch.{Stretch, Traded};
ghost use Rattle.moves.specs.Promises.{Ahead, Apart};

// Word to + u of one buffer receives word from + u of another.
pub(crate) fn copy_words(buf: &mut [u32], to: usize, other: &[u32], from: usize, count: usize)
    requires { (to + count ≤ length buf.old) × (from + count ≤ length other.now) }
    ensures { Stretch to count (λ u. get_or other.now (from + u) 0) buf.old buf.new }
{
    // Kept: `copy_from_slice` between two lent buffers calls memmove where the count is not known, and the header says that the archive asks the C
    // library for memcpy and memset alone.
    for u in 0..count {
        buf[to + u] = other[from + u];
    }
}

// Moves words to a place before them or apart from them, the first first, so that none is overwritten before it is read.
pub(crate) fn fall_words(buf: &mut [u32], to: usize, from: usize, count: usize)
    requires { (to + count ≤ length buf.old) × (from + count ≤ length buf.old) × Ahead to from count }
    ensures { Stretch to count (λ u. get_or buf.old (from + u) 0) buf.old buf.new }
{
    // Kept: `copy_within` would serve, but it hides the order of the stores, which the must-fail edit fall_from_the_wrong_end is about.
    for u in 0..count {
        buf[to + u] = buf[from + u];
    }
}

// Moves words to a place after them.
pub(crate) fn rise_words(buf: &mut [u32], to: usize, from: usize, count: usize)
    requires { (from ≤ to) × (to + count ≤ length buf.old) }
    ensures { Stretch to count (λ u. get_or buf.old (from + u) 0) buf.old buf.new }
{
    buf.copy_within(from..from + count, to);
}

pub(crate) fn zero_words(buf: &mut [u32], from: usize, count: usize)
    requires { from + count ≤ length buf.old }
    ensures { Stretch from count (λ u. 0) buf.old buf.new }
{
    buf[from..from + count].fill(0);
}

// Words x + u and y + u trade places.
pub(crate) fn trade_words(buf: &mut [u32], x: usize, y: usize, count: usize)
    requires { (x + count ≤ length buf.old) × (y + count ≤ length buf.old) × Apart x y count }
    ensures { Traded x y count buf.old buf.new }
{
    // Kept: `buf.swap(x + u, y + u)` takes five times as long for runs of 64 words and more.
    for u in 0..count {
        let there = buf[x + u];
        buf[x + u] = buf[y + u];
        buf[y + u] = there;
    }
}
