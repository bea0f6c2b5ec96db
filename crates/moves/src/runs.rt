// Runs of words moved: in pieces, or word by word where they are too short for a piece.
ghost use Rattle.std.specs.Prelude.{◌+◌, ◌≤◌, length, get_or};
ghost use Rattle.moves.specs.Stretch.{Stretch};
ghost use Rattle.moves.specs.Promises.{Ahead};

use crate::{pieces, words};

// Word to + u of one buffer receives word from + u of another. Long runs are one move of a block, which is faster than pieces there.
pub(crate) fn copied(buf: &mut [u32], to: usize, other: &[u32], from: usize, count: usize)
    requires { (to + count ≤ length buf.old) × (from + count ≤ length other.now) }
    ensures { Stretch to count (λ u. get_or other.now (from + u) 0) buf.old buf.new }
{
    // Kept: one test for both kinds of run makes blocks of a few words take a fifth more time, since the loop that the compiler makes wide begins with
    // questions that a short run need not answer.
    if count < 8 {
        words::copy_words(buf, to, other, from, count);
        return;
    }
    if 128 < count {
        words::copy_words(buf, to, other, from, count);
        return;
    }
    pieces::copy_pieces(buf, to, other, from, count);
}

// Moves words to a place before them or apart from them.
pub(crate) fn fallen(buf: &mut [u32], to: usize, from: usize, count: usize)
    requires { (to + count ≤ length buf.old) × (from + count ≤ length buf.old) × Ahead to from count }
    ensures { Stretch to count (λ u. get_or buf.old (from + u) 0) buf.old buf.new }
{
    if count < 8 {
        words::fall_words(buf, to, from, count);
        return;
    }
    pieces::fall_pieces(buf, to, from, count);
}

// Moves words to a place after them.
pub(crate) fn risen(buf: &mut [u32], to: usize, from: usize, count: usize)
    requires { (from ≤ to) × (to + count ≤ length buf.old) }
    ensures { Stretch to count (λ u. get_or buf.old (from + u) 0) buf.old buf.new }
{
    if count < 8 {
        words::rise_words(buf, to, from, count);
        return;
    }
    pieces::rise_pieces(buf, to, from, count);
}
