// Four and five axes: swaps, chains of swaps, and direct requests for an order by its number.
#![tactic(auto)]

ghost use Rattle.std.specs.Prelude.{◌≡◌, ◌+◌, ◌<◌, length, take};
ghost use Rattle.orders.specs.Chains.{exchange};
ghost use Rattle.plans.specs.Promise.{count_of};
ghost use Rattle.axes.specs.Answers.{five_lengths, in_c};
ghost use Rattle.axes.specs.Promises.{ChainPromise, RequestPromise};

mod chains;

use plans::Axes;
use refusals::Refused;

// The lengths of up to five axes, last axis fastest. A call on four axes does not read the fifth.
#[repr(C)]
#[derive(Clone, Copy)]
pub struct Shape {
    pub lengths: [usize; 5],
}

impl Shape {
    // The shape of the first axes: the lengths of the others are 0.
    pub(crate) fn first(self, axes: usize) -> Shape
        ensures { result.lengths ≡ five_lengths (take axes self.lengths) }
    {
        let mut lengths = self.lengths;
        lengths[axes.min(5)..].fill(0);
        Shape { lengths }
    }

    // The shape of so many axes with those at places k and k + 1 exchanged. Where they have no such places nothing changes; lengths past them come back 0.
    pub fn swapped(self, axes: usize, k: usize) -> Shape
        ensures { result.lengths ≡ five_lengths (exchange k (take axes self.lengths)) }
    {
        let stands = self.first(axes);
        if 3 < k || axes < k + 2 {
            return stands;
        }
        let mut lengths = stands.lengths;
        lengths.swap(k, k + 1);
        Shape { lengths }
    }
}

// What an accepted call on a block reaches: the five new lengths (of four axes the last is 0), an order number (a chain's own order in release 1; of a
// request the number that was asked for), the swaps done.
// Kept: without a heap the lengths of four axes or five stand in an array of five.
#[derive(Clone, Copy)]
pub struct Reached {
    pub lengths: [usize; 5],
    pub order: usize,
    pub swaps: usize,
}

// What C sees of the answer: its number and its place, and what the call reached, all 0 where it was refused.
// Kept: the C interface reads a number and the values beside it.
#[repr(C)]
#[derive(Clone, Copy)]
pub struct Answer {
    pub number: u32,
    pub place: usize,
    pub lengths: [usize; 5],
    pub order: usize,
    pub swaps: usize,
}

impl From<Result<Reached, Refused>> for Answer {
    ghost from_gives = { λ answer seen. seen ≡ in_c answer };

    fn from(answer: Result<Reached, Refused>) -> Answer {
        match answer {
            Ok(reached) => {
                let lengths = reached.lengths;
                Answer {
                    number: 0,
                    place: 0,
                    lengths,
                    order: reached.order,
                    swaps: reached.swaps,
                }
            }
            Err(refused) => Answer {
                number: refused.refusal.number(),
                place: refused.place,
                lengths: [0; 5],
                order: 0,
                swaps: 0,
            },
        }
    }
}

// A chain of swaps on a block, through scratch as long as the longest axis that it exchanges; or 1, 2, 3, 13, 5, 6 with the place of the first wrong
// swap, 4.
pub fn chain(
    axes: Axes,
    buf: &mut [u32],
    scratch: &mut [u32],
    shape: Shape,
    swaps: &[usize],
) -> Result<Reached, Refused>
    ensures { ChainPromise (count_of axes) (take (count_of axes) shape.lengths) swaps.now buf.old scratch.old (in_c result) buf.new scratch.new }
{
    let lengths = shape.lengths;
    chains::check_chain(&lengths[..axes.count()], buf, scratch, swaps)?;
    Ok(chains::run(axes, buf, scratch, shape, swaps))
}

// The direct request for the order that a number names by its release, which runs that order's plan and needs what the plan needs; or 1, 2, 3, 13, 14, 7,
// 4. It answers the number that it was given.
pub fn request(
    axes: Axes,
    buf: &mut [u32],
    scratch: &mut [u32],
    shape: Shape,
    release: usize,
    order: usize,
) -> Result<Reached, Refused>
    ensures { RequestPromise (count_of axes) (take (count_of axes) shape.lengths) release order buf.old scratch.old (in_c result) buf.new scratch.new }
{
    let lengths = shape.lengths;
    checks::check_block(&lengths[..axes.count()], buf)?;
    checks::check_named(axes.orders() - 1, release, order)?;
    let plan = plans::plan(axes, plans::tables::number_by(axes, release, order)).unwrap();
    let places = plan.places;
    let reached = chain(axes, buf, scratch, shape, &places[..plan.count])?;
    Ok(Reached { order, ..reached })
}
