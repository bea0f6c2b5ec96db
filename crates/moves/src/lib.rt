// Stretches of words moved, zeroed and traded within their buffer, or copied from another. A call that names words outside changes nothing.
#![tactic(auto)]

mod pieces;
mod runs;
mod words;

ghost use Rattle.std.specs.Prelude.{true, false, ◌≡◌, ◌+◌, ◌≤◌, min};
ghost use Rattle.moves.specs.Promises.{Ahead, Apart, CopyPromise, FallPromise, HandPromise, RisePromise, ZeroPromise, TradePromise};

// Kept: three numbers say a move throughout this crate, since the promises of its public calls name them so; a struct of them would be made at each
// call, and taken apart in it.

// Whether the run of count words from an offset on ends past a buffer of so many words.
fn past(len: usize, at: usize, count: usize) -> bool
    ensures { (result ≡ false → at + count ≤ len) × (result ≡ true → (at + count ≤ len → ⊥)) }
{
    len < count || len - count < at
}

// The smaller of two counts.
pub fn smaller(x: usize, y: usize) -> usize
    ensures { result ≡ min x y }
{
    x.min(y)
}

// Whether one of two runs of count words ends past a buffer of so many words.
fn outside(len: usize, x: usize, y: usize, count: usize) -> bool
    ensures { (result ≡ false → (x + count ≤ len) × (y + count ≤ len)) × (result ≡ true → ((x + count ≤ len) × (y + count ≤ len) → ⊥)) }
{
    past(len, x.max(y), count)
}

// Whether words that go to a place after them would be overwritten before they are read, the first first.
fn behind(to: usize, from: usize, count: usize) -> bool
    ensures { (result ≡ false → Ahead to from count) × (result ≡ true → (Ahead to from count → ⊥)) }
{
    from < to && to - from < count
}

// Whether two runs of count words have a word in common. Which of them comes first is not asked: the machine would guess it, and half of the
// time wrong.
fn overlap(x: usize, y: usize, count: usize) -> bool
    ensures { (result ≡ false → Apart x y count) × (result ≡ true → (Apart x y count → ⊥)) }
{
    x.abs_diff(y) < count
}

// Word to + u of the buffer receives word from + u of the other one, for u below count.
pub fn copy(buf: &mut [u32], to: usize, other: &[u32], from: usize, count: usize)
    ensures { CopyPromise to from count other.now buf.old buf.new }
{
    if past(buf.len(), to, count) || past(other.len(), from, count) {
        return;
    }
    runs::copied(buf, to, other, from, count);
}

// Word to + u receives what word from + u held, for u below count: to a place before them or apart from them.
pub fn fall(buf: &mut [u32], to: usize, from: usize, count: usize)
    ensures { FallPromise to from count buf.old buf.new }
{
    if outside(buf.len(), to, from, count) || behind(to, from, count) {
        return;
    }
    runs::fallen(buf, to, from, count);
}

// The same where the two runs lie apart.
pub fn hand(buf: &mut [u32], to: usize, from: usize, count: usize)
    ensures { HandPromise to from count buf.old buf.new }
{
    if outside(buf.len(), to, from, count) || overlap(to, from, count) {
        return;
    }
    runs::fallen(buf, to, from, count);
}

// The same to a place after them.
pub fn rise(buf: &mut [u32], to: usize, from: usize, count: usize)
    ensures { RisePromise to from count buf.old buf.new }
{
    if to < from || past(buf.len(), to, count) {
        return;
    }
    runs::risen(buf, to, from, count);
}

// Zeroes count words.
pub fn zero(buf: &mut [u32], from: usize, count: usize)
    ensures { ZeroPromise from count buf.old buf.new }
{
    if past(buf.len(), from, count) {
        return;
    }
    words::zero_words(buf, from, count);
}

// Words x + u and y + u trade places, for u below count, where the two runs lie apart.
pub fn trade(buf: &mut [u32], x: usize, y: usize, count: usize)
    ensures { TradePromise x y count buf.old buf.new }
{
    if outside(buf.len(), x, y, count) || overlap(x, y, count) {
        return;
    }
    words::trade_words(buf, x, y, count);
}
