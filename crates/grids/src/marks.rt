// Marks of places, one bit a place, thirty-two to a word.
ghost use Rattle.std.specs.Prelude.{◌≡◌, ◌*◌, ◌<◌, length};
ghost use Rattle.grids.specs.Private.{bit_at, MarkedToo};

pub(crate) fn marked(marks: &[u32], place: usize) -> bool
    requires { place < 32 * length marks.now }
    ensures { result ≡ bit_at marks.now place }
{
    marks[place >> 5] >> (place & 31) & 1 == 1
}

pub(crate) fn mark(marks: &mut [u32], place: usize)
    requires { place < 32 * length marks.old }
    ensures { MarkedToo place marks.old marks.new }
{
    marks[place >> 5] |= 1 << (place & 31);
}
