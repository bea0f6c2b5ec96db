// Squares: words by recursion, which exchanges them across the diagonal in tiles; elements of several words trade places.
ghost use Rattle.std.specs.Prelude.{◌≡◌, ◌<◌};
ghost use Rattle.strips.specs.PrivateShapes.{Inside, Turned};
ghost use Rattle.strips.specs.PrivateMoves.{RowCrossed};

use crate::shape::Shape;

// The elements of row i before the diagonal trade places with those of column i.
fn cross(buf: &mut [u32], shape: Shape, i: usize)
    requires { Inside 1 shape buf.old × (shape.m ≡ shape.n) × (i < shape.n) }
    ensures { RowCrossed shape.n shape.g i i buf.old buf.new }
{
    let (n, g) = (shape.n, shape.g);
    for j in 0..i {
        moves::trade(buf, (i * n + j) * g, (j * n + i) * g, g);
    }
}

// Turns the square of words that the buffer begins with.
pub(crate) fn by_recursion(buf: &mut [u32], shape: Shape)
    requires { Inside 1 shape buf.old × (shape.m ≡ shape.n) × (shape.g ≡ 1) }
    ensures { Turned shape buf.old buf.new }
{
    let n = shape.n;
    // A square of accepted sides is not refused.
    let _ = recursion::turn(&mut buf[..n * n], n, n);
}

// Turns the square of elements that the buffer begins with.
pub(crate) fn turned(buf: &mut [u32], shape: Shape)
    requires { Inside 1 shape buf.old × (shape.m ≡ shape.n) }
    ensures { Turned shape buf.old buf.new }
{
    for i in 1..shape.n {
        cross(buf, shape, i);
    }
}
