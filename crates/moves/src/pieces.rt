// Words moved in pieces of eight. The last two pieces of a run may overlap, so that no words are left over.
ghost use Rattle.std.specs.Prelude.{◌≡◌, ℕ, ◌+◌, ◌<◌, ◌≤◌, length, get_or};
ghost use Rattle.moves.specs.Stretch.{Stretch};
ghost use Rattle.moves.specs.Promises.{Ahead};

// The eight words from an offset on.
fn held(buf: &[u32], from: usize) -> [u32; 8]
    requires { from + 8 ≤ length buf.now }
    ensures { (p : ℕ) → p < 8 → get_or result p 0 ≡ get_or buf.now (from + p) 0 }
{
    let mut words = [0; 8];
    words.copy_from_slice(&buf[from..from + 8]);
    words
}

// Stores eight words.
fn store(buf: &mut [u32], to: usize, words: [u32; 8])
    requires { to + 8 ≤ length buf.old }
    ensures { Stretch to 8 (λ p. get_or words p 0) buf.old buf.new }
{
    buf[to..to + 8].copy_from_slice(&words);
}

// Word to + u of one buffer receives word from + u of another, for eight words or more.
pub(crate) fn copy_pieces(buf: &mut [u32], to: usize, other: &[u32], from: usize, count: usize)
    requires { (8 ≤ count) × (to + count ≤ length buf.old) × (from + count ≤ length other.now) }
    ensures { Stretch to count (λ u. get_or other.now (from + u) 0) buf.old buf.new }
{
    let end = count - 8;
    // Kept: `for u in (0..end).step_by(8)` takes a sixth more time for runs of 13 to 20 words, as the rows of tiles are.
    let mut u = 0;
    while u < end {
        store(buf, to + u, held(other, from + u));
        u += 8;
    }
    store(buf, to + end, held(other, from + end));
}

// Moves eight to sixteen words to any place: two pieces, both read before either is stored.
fn two_pieces(buf: &mut [u32], to: usize, from: usize, count: usize)
    requires { (8 ≤ count) × (count ≤ 16) × (to + count ≤ length buf.old) × (from + count ≤ length buf.old) }
    ensures { Stretch to count (λ u. get_or buf.old (from + u) 0) buf.old buf.new }
{
    let end = count - 8;
    let first = held(buf, from);
    let last = held(buf, from + end);
    store(buf, to, first);
    store(buf, to + end, last);
}

// Moves eight words or more to a place before them or apart from them, the first first.
pub(crate) fn fall_pieces(buf: &mut [u32], to: usize, from: usize, count: usize)
    requires { (8 ≤ count) × (to + count ≤ length buf.old) × (from + count ≤ length buf.old) × Ahead to from count }
    ensures { Stretch to count (λ u. get_or buf.old (from + u) 0) buf.old buf.new }
{
    // Kept: the words that are left after the loop begin where it ends; a `for` would have to compute that place a second time.
    let mut u = 0;
    while 16 < count - u {
        let piece = held(buf, from + u);
        store(buf, to + u, piece);
        u += 8;
    }
    two_pieces(buf, to + u, from + u, count - u);
}

// Moves eight words or more to a place after them, the last first.
pub(crate) fn rise_pieces(buf: &mut [u32], to: usize, from: usize, count: usize)
    requires { (8 ≤ count) × (from ≤ to) × (to + count ≤ length buf.old) }
    ensures { Stretch to count (λ u. get_or buf.old (from + u) 0) buf.old buf.new }
{
    // Kept: the words that are left after the loop end where it ends; a `for` would have to compute that place a second time.
    let mut u = count;
    while 16 < u {
        u -= 8;
        let piece = held(buf, from + u);
        store(buf, to + u, piece);
    }
    two_pieces(buf, to, from, u);
}
