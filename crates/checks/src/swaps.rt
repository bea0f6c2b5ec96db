// The checks of an adjacent swap, made before it touches a word.
ghost use Rattle.std.specs.Prelude.{◌≡◌};
ghost use Rattle.refusals.specs.FirstOf.{first_of};
ghost use Rattle.refusals.specs.Calls.{no_block, swap_checks};
ghost use Rattle.refusals.specs.Refusal.{answered};

use refusals::Refusal;

// Whether an adjacent swap has a side out of range, no block before the two axes or no word after them.
fn no_block(outer: usize, m: usize, n: usize, chunk: usize) -> bool
    ensures { result ≡ no_block outer m n chunk }
{
    crate::bad_length(&[m, n]) || outer == 0 || chunk == 0
}

// The checks 1, 2, 3, 13 and 4 of an adjacent swap.
pub fn check_swap(
    buf: &[u32],
    scratch: &[u32],
    outer: usize,
    m: usize,
    n: usize,
    chunk: usize,
) -> Result<(), Refusal>
    ensures { answered result ≡ first_of (swap_checks outer m n chunk buf.now scratch.now) }
{
    if no_block(outer, m, n, chunk) {
        return Err(Refusal::BadLength);
    }
    crate::check_words(&[outer, m, n, chunk], buf)?;
    if scratch.len() < crate::longest_of(&[m, n]) {
        return Err(Refusal::ShortScratch);
    }
    Ok(())
}
