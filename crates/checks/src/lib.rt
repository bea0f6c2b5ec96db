// The checks that every call on a block makes, on lengths and counts. Each function is total: no caller needs to have tested anything.
#![tactic(auto)]

pub mod swaps;

ghost use Rattle.std.specs.Prelude.{◌≡◌, [], ◌∷◌, ◌*◌, ◌<◌, ◌≤◌, ltb, length, MatchOption};
ghost use Rattle.layout.specs.Layout.{volume};
ghost use Rattle.orders.specs.Needs.{swap_need, chain_need};
ghost use Rattle.refusals.specs.FirstOf.{check, first_of};
ghost use Rattle.refusals.specs.Conditions.{out_of_range, bad_length, too_many_words, longest, first_place, no_release};
ghost use Rattle.refusals.specs.Calls.{size_checks, exact_checks, block_checks, passes_checks};
ghost use Rattle.refusals.specs.Refusal.{answered};
ghost use Rattle.sheets.specs.Checks.{sheet_checks};
ghost use Rattle.checks.specs.Words.{capped};

use refusals::Refusal;

// The longest that an axis may be.
const LONGEST: usize = 4096;

// The most words of a block.
const MOST_WORDS: usize = 1048576;

// What a count of words is cut to.
const CUT: usize = MOST_WORDS + 1;

// The most words of a sheet's block.
const SHEET_WORDS: usize = 1024;

// Whether no axis may have this length: 0 or above 4,096.
fn out_of_range(axis: usize) -> bool
    ensures { result ≡ out_of_range axis }
{
    axis == 0 || LONGEST < axis
}

// Whether an axis length is 0 or above 4,096.
pub fn bad_length(lens: &[usize]) -> bool
    ensures { result ≡ bad_length lens.now }
{
    lens.iter().any(|&axis| out_of_range(axis))
}

// A count of words times a length, cut to one more than a block may have.
fn times(words: usize, axis: usize) -> usize
    ensures { result ≡ capped (words * axis) }
{
    words.saturating_mul(axis).min(CUT)
}

// The words of a block: its lengths multiplied, cut to one more than a block may have.
pub fn words_of(lens: &[usize]) -> usize
    ensures { result ≡ capped (volume lens.now) }
{
    lens.iter().fold(1, |words, &axis| times(words, axis))
}

// The longest axis.
pub fn longest_of(lens: &[usize]) -> usize
    ensures { result ≡ longest lens.now }
{
    lens.iter().fold(0, |most, &axis| most.max(axis))
}

// The longer of the two axes that swap k exchanges; 0 where there are no such places.
fn exchanged_by(lens: &[usize], k: usize) -> usize
    ensures { result ≡ swap_need k lens.now }
{
    if lens.len().saturating_sub(1) <= k {
        return 0;
    }
    lens[k].max(lens[k + 1])
}

// The need of a chain: the longest axis that its swaps exchange. An axis stays at its entry place until a swap counts it, so the entry lengths tell.
pub fn need_of(lens: &[usize], swaps: &[usize]) -> usize
    ensures { result ≡ chain_need lens.now swaps.now }
{
    let mut most = 0;
    for &k in swaps {
        let pair = exchanged_by(lens, k);
        most = pair.max(most);
    }
    most
}

// The place of the first number above the last one allowed, if there is one.
pub fn first_above(numbers: &[usize], last: usize) -> Option<usize>
    ensures { MatchOption result (first_place (ltb last) numbers.now ≡ length numbers.now) (λ place. (place < length numbers.now) × (place ≡ first_place (ltb last) numbers.now)) }
{
    numbers.iter().position(|&number| last < number)
}

// The checks 1 and 2 of a block's size.
pub fn check_size(lens: &[usize]) -> Result<(), Refusal>
    ensures { answered result ≡ first_of (size_checks lens.now) }
{
    if bad_length(lens) {
        return Err(Refusal::BadLength);
    }
    if MOST_WORDS < words_of(lens) {
        return Err(Refusal::TooManyWords);
    }
    Ok(())
}

// The checks 2, 3 and 13 of a block in a buffer of its size.
pub(crate) fn check_words(lens: &[usize], buf: &[u32]) -> Result<(), Refusal>
    ensures { answered result ≡ first_of (check 2 (too_many_words lens.now) ∷ exact_checks lens.now buf.now) }
{
    let words = words_of(lens);
    if MOST_WORDS < words {
        return Err(Refusal::TooManyWords);
    }
    if buf.len() < words {
        return Err(Refusal::ShortBuffer);
    }
    if words < buf.len() {
        return Err(Refusal::LongBuffer);
    }
    Ok(())
}

// The checks 1, 2, 3 and 13 of a block in a buffer of its size.
pub fn check_block(lens: &[usize], buf: &[u32]) -> Result<(), Refusal>
    ensures { answered result ≡ first_of (block_checks lens.now buf.now) }
{
    if bad_length(lens) {
        return Err(Refusal::BadLength);
    }
    check_words(lens, buf)
}

// The checks 1, 2, 3, 13 and 4 of a flat block that is turned through scratch.
pub fn check_passes(lens: &[usize], buf: &[u32], scratch: &[u32]) -> Result<(), Refusal>
    ensures { answered result ≡ first_of (passes_checks lens.now buf.now scratch.now) }
{
    check_block(lens, buf)?;
    if scratch.len() < longest_of(lens) {
        return Err(Refusal::ShortScratch);
    }
    Ok(())
}

// Whether a release is neither 1 nor 2.
fn no_release(release: usize) -> bool
    ensures { result ≡ no_release release }
{
    !(release == 1 || release == 2)
}

// The checks 14 and 7 of an order number and its release; for four axes the last order is 23, for five 119.
pub fn check_named(last: usize, release: usize, order: usize) -> Result<(), Refusal>
    ensures { answered result ≡ first_of (check 14 (no_release release) ∷ check 7 (ltb last order) ∷ []) }
{
    if no_release(release) {
        return Err(Refusal::BadRelease);
    }
    if last < order {
        return Err(Refusal::BadOrder);
    }
    Ok(())
}

// The checks 1, 11 and 3 of a sheet's block.
pub fn check_sheet(lens: &[usize], words: &[u32]) -> Result<(), Refusal>
    ensures { answered result ≡ first_of (sheet_checks lens.now words.now) }
{
    if bad_length(lens) {
        return Err(Refusal::BadLength);
    }
    let size = words_of(lens);
    if SHEET_WORDS < size {
        return Err(Refusal::LargeSheet);
    }
    if words.len() < size {
        return Err(Refusal::ShortBuffer);
    }
    Ok(())
}
