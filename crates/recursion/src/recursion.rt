// The turn of a block that fills a lent slice: a square is exchanged across its diagonal, a tall block is cut by rows, a wide one by
// columns.
ghost use Rattle.flat.specs.Turn.{Turn};
ghost use Rattle.recursion.specs.Private.{Block};

use crate::runs::{merge, split};
use crate::square::{by_tiles, by_words};

// A square of fewer rows is exchanged word by word: to zero the arrays of the tiles costs more than they save. It is asked before the call, so that a
// small square has no frame with arrays.
const FEW: usize = 32;

// Turns a block. The longer side is cut in two, so that each part is a block. Rows are turned part by part and then merged; columns are split
// first.
pub(crate) fn turned(s: &mut [u32], m: usize, n: usize)
    requires { Block m n s.old }
    ensures { Turn m n s.old s.new }
{
    if m == n {
        if n < FEW {
            by_words(s, n);
        } else {
            by_tiles(s, n);
        }
    } else if n < m {
        let h = m / 2;
        let g = m - h;
        let (first, second) = s.split_at_mut(h * n);
        turned(first, h, n);
        turned(second, g, n);
        merge(s, n, h, g);
    } else {
        let h = n / 2;
        let g = n - h;
        split(s, m, h, g);
        let (first, second) = s.split_at_mut(m * h);
        turned(first, m, h);
        turned(second, m, g);
    }
}
