// The grid of chunks that a strip or a large block is cut in.
ghost use Rattle.std.specs.Prelude.{◌*◌, ◌≤◌};
ghost use Rattle.strips.specs.PrivateShapes.{Inside, Turned};

use crate::Room;
use crate::shape::Shape;

// Turns the block that the buffer begins with, its elements as chunks. The room holds the marks.
pub(crate) fn turned(buf: &mut [u32], room: &mut Room, shape: Shape)
    requires { Inside 1 shape buf.old × (shape.m * shape.n ≤ 65536) }
    ensures { Turned shape buf.old buf.new }
{
    let marks = (shape.m * shape.n).div_ceil(64);
    grids::turn_grid(buf, &mut room[..marks], shape.m, shape.n, shape.g);
}
