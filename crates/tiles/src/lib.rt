// A block stored as tiles within its buffer, and tiles as a block.
#![tactic(auto)]

mod bands;
mod refusal;

ghost use Rattle.std.specs.Prelude.{◌≡◌};
ghost use Rattle.refusals.specs.Refusal.{answered};
ghost use Rattle.tiles.specs.Promises.{ToTilesPromise, FromTilesPromise};
ghost use Rattle.tiles.specs.PrivateWay.{tiling_of, WayPromise};

use crate::bands::Tiling;
use refusals::Refusal;

// Whether a block goes into tiles or comes out of them.
#[derive(Clone, Copy)]
enum Way {
    Into,
    OutOf,
}

impl Way {
    // An m by n block with tiles of r by s words on the other side. The tiles of the block itself are as wide as it, so that they are its rows.
    fn tiling(self, m: usize, n: usize, r: usize, s: usize) -> Tiling
        ensures { result ≡ tiling_of self m n r s }
    {
        let (from, to) = match self {
            Way::Into => (n, s),
            Way::OutOf => (s, n),
        };
        Tiling {
            rows: m,
            columns: n,
            height: r,
            from,
            to,
        }
    }

    // Converts an m by n block one way or the other, or refuses: 1, 2, 15, 3, 13, 4.
    fn convert(
        self,
        buf: &mut [u32],
        scratch: &mut [u32],
        m: usize,
        n: usize,
        r: usize,
        s: usize,
    ) -> Result<(), Refusal>
        ensures { WayPromise self m n r s buf.old scratch.old (answered result) buf.new scratch.new }
    {
        refusal::check_tiles(buf, scratch, m, n, r, s)?;
        bands::convert(buf, scratch, self.tiling(m, n, r, s));
        Ok(())
    }
}

// Stores an m by n block as tiles of r by s words within its buffer, through scratch of r·n words, or refuses: 1, 2, 15, 3, 13, 4.
pub fn to_tiles(
    buf: &mut [u32],
    scratch: &mut [u32],
    m: usize,
    n: usize,
    r: usize,
    s: usize,
) -> Result<(), Refusal>
    ensures { ToTilesPromise m n r s buf.old scratch.old (answered result) buf.new scratch.new }
{
    Way::Into.convert(buf, scratch, m, n, r, s)
}

// Stores the tiles of r by s words of an m by n block as the block again: the same checks and the same scratch.
pub fn from_tiles(
    buf: &mut [u32],
    scratch: &mut [u32],
    m: usize,
    n: usize,
    r: usize,
    s: usize,
) -> Result<(), Refusal>
    ensures { FromTilesPromise m n r s buf.old scratch.old (answered result) buf.new scratch.new }
{
    Way::OutOf.convert(buf, scratch, m, n, r, s)
}
