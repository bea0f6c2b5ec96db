// Blocks of one shape, one after the other.
ghost use Rattle.std.specs.Prelude.{◌≤◌, length};
ghost use Rattle.strips.specs.PrivateShapes.{size, Inside, Turned, AllTurned};

use crate::Room;
use crate::shape::Shape;

// Turns so many blocks, one after the other, by what turns one. Blocks of one line stay.
pub(crate) fn turn_each<F: Fn(&mut [u32], &mut Room)>(
    buf: &mut [u32],
    room: &mut Room,
    y: usize,
    shape: Shape,
    turn: F,
)
    requires inside { Inside y shape buf.old }
    requires callable { (part : _) (lent : _) → size shape ≤ length part.now → F.pre turn part lent }
    requires turning { (part : _) (lent : _) (after : _) (left : _) → F.post turn part lent tt after left → Turned shape part.now after.now }
    ensures { AllTurned y shape buf.old buf.new }
{
    if shape.is_line() {
        return;
    }
    let words = shape.size();
    // Kept: `chunks_exact_mut` was tried, and no invariant can name the buffer while its chunks are lent, so the proof stayed open.
    for t in 0..y {
        let base = t * words;
        let end = base + words;
        turn(&mut buf[base..end], room);
    }
}
