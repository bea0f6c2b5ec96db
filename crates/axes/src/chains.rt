// Swaps and chains of swaps on a block. The lengths that are read are lent as a slice, as many as there are axes.
ghost use Rattle.std.specs.Prelude.{◌≡◌, ◌≤◌, Ok, length, take};
ghost use Rattle.lists.specs.Tab.{upto};
ghost use Rattle.layout.specs.Layout.{Laid};
ghost use Rattle.orders.specs.Chains.{exchange};
ghost use Rattle.orders.specs.Needs.{swap_need};
ghost use Rattle.refusals.specs.FirstOf.{first_of};
ghost use Rattle.refusals.specs.Calls.{chain_checks};
ghost use Rattle.refusals.specs.Scratch.{cleared};
ghost use Rattle.plans.specs.Promise.{count_of};
ghost use Rattle.axes.specs.Answers.{refused_place, number_at, place_at, in_c};
ghost use Rattle.axes.specs.Promises.{ChainPromise};
ghost use Rattle.axes.specs.Private.{SwapAccepted};

use crate::{Reached, Shape};
use plans::Axes;
use refusals::{Refusal, Refused};

// The most swaps of a chain.
const MOST_SWAPS: usize = 32;

// The checks 1, 2, 3, 13, 5, 6, 4.
pub(crate) fn check_chain(
    lengths: &[usize],
    buf: &[u32],
    scratch: &[u32],
    swaps: &[usize],
) -> Result<(), Refused>
    requires { 2 ≤ length lengths.now }
    ensures number { number_at result ≡ first_of (chain_checks (length lengths.now) lengths.now buf.now scratch.now swaps.now) }
    ensures place { place_at result ≡ refused_place (length lengths.now) (number_at result) swaps.now }
{
    checks::check_block(lengths, buf)?;
    if MOST_SWAPS < swaps.len() {
        return Err(Refusal::LongChain.into());
    }
    if let Some(place) = checks::first_above(swaps, lengths.len() - 2) {
        return Err(Refused {
            refusal: Refusal::BadSwap,
            place,
        });
    }
    if scratch.len() < checks::need_of(lengths, swaps) {
        return Err(Refusal::ShortScratch.into());
    }
    Ok(())
}

// Swap k of a block: the axes before place k, the two axes and the axes after them. It leaves as many zeros in scratch as the longer axis is long.
fn swap_at(buf: &mut [u32], scratch: &mut [u32], lengths: &[usize], k: usize)
    requires { SwapAccepted k lengths.now buf.old scratch.old }
    ensures laid { Laid lengths.now (exchange k (upto (length lengths.now))) buf.old buf.new }
    ensures scratch_after { scratch.new ≡ cleared (swap_need k lengths.now) scratch.old }
{
    let outer = checks::words_of(&lengths[..k]);
    let chunk = checks::words_of(&lengths[k + 2..]);
    strips::swap(buf, scratch, outer, lengths[k], lengths[k + 1], chunk).unwrap();
}

// An accepted chain, swap by swap; each swap clears the scratch that it used.
pub(crate) fn run(
    axes: Axes,
    buf: &mut [u32],
    scratch: &mut [u32],
    shape: Shape,
    swaps: &[usize],
) -> Reached
    requires { first_of (chain_checks (count_of axes) (take (count_of axes) shape.lengths) buf.old scratch.old swaps.now) ≡ 0 }
    ensures { ChainPromise (count_of axes) (take (count_of axes) shape.lengths) swaps.now buf.old scratch.old (in_c (Ok result)) buf.new scratch.new }
{
    let count = axes.count();
    let mut stands = shape;
    let mut order = 0;
    for &k in swaps {
        let lengths = stands.lengths;
        swap_at(buf, scratch, &lengths[..count], k);
        stands = stands.swapped(count, k);
        order = plans::tables::next_order(axes, order, k);
    }
    let lengths = stands.first(count).lengths;
    Reached {
        lengths,
        order,
        swaps: swaps.len(),
    }
}
