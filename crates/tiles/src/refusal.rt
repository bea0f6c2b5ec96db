// The checks of a conversion, made before it touches a word.
ghost use Rattle.std.specs.Prelude.{◌≡◌};
ghost use Rattle.refusals.specs.FirstOf.{first_of};
ghost use Rattle.refusals.specs.Refusal.{answered};
ghost use Rattle.tiles.specs.Promises.{no_side, bad_tile, tile_checks};

use refusals::Refusal;

// Whether no tile may have this side: 0 or above 64.
fn no_side(side: usize) -> bool
    ensures { result ≡ no_side side }
{
    side == 0 || 64 < side
}

// Whether a tile side is 0 or above 64.
fn bad_tile(r: usize, s: usize) -> bool
    ensures { result ≡ bad_tile r s }
{
    no_side(r) || no_side(s)
}

// Both conversions: 1, 2, 15, 3, 13, 4.
pub(crate) fn check_tiles(
    buf: &[u32],
    scratch: &[u32],
    m: usize,
    n: usize,
    r: usize,
    s: usize,
) -> Result<(), Refusal>
    ensures { answered result ≡ first_of (tile_checks m n r s buf.now scratch.now) }
{
    checks::check_size(&[m, n])?;
    if bad_tile(r, s) {
        return Err(Refusal::BadTile);
    }
    let words = m * n;
    if buf.len() < words {
        return Err(Refusal::ShortBuffer);
    }
    if words < buf.len() {
        return Err(Refusal::LongBuffer);
    }
    if scratch.len() < r * n {
        return Err(Refusal::ShortScratch);
    }
    Ok(())
}
