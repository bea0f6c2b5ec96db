// The turn by recursion: rotation by block swaps, merge and split of runs, the tall and the wide case, and the call.
#![tactic(auto)]

mod recursion;
mod rotation;
mod runs;
mod square;
mod tile;

ghost use Rattle.refusals.specs.Refusal.{answered};
ghost use Rattle.recursion.specs.Promise.{RecursionPromise};

use refusals::Refusal;

// Turns the block of m rows and n columns that fills the buffer, with no scratch; or refuses with 1, 2, 3 or 13.
#[tactic(auto, using(crate::proofs::Lent::checked_block))]
pub fn turn(buf: &mut [u32], m: usize, n: usize) -> Result<(), Refusal>
    ensures { RecursionPromise m n buf.old (answered result) buf.new }
{
    checks::check_block(&[m, n], buf)?;
    recursion::turned(buf, m, n);
    Ok(())
}
