// The orders of four and of five axes as tables, and the plan of an order.
#![tactic(auto)]

ghost use Rattle.std.specs.Prelude.{◌≡◌, ◌-◌, ◌≤◌, length, take};
ghost use Rattle.layout.specs.Layout.{Below};
ghost use Rattle.orders.specs.Numbers.{order_count};
ghost use Rattle.orders.specs.Plans.{falling, plan_of};
ghost use Rattle.plans.specs.Promise.{count_of, PlanPromise, plan_as, in_c};

mod steps;
pub mod tables;

use refusals::Refusal;

// How many axes an order has.
#[derive(Clone, Copy, Debug, PartialEq, Eq)]
pub enum Axes {
    Four = 4,
    Five = 5,
}

impl Axes {
    pub fn count(self) -> usize
        ensures { result ≡ count_of self }
    {
        self as usize
    }

    // How many orders they have.
    pub fn orders(self) -> usize
        ensures { result ≡ order_count (count_of self) }
    {
        match self {
            Axes::Four => 24,
            Axes::Five => 120,
        }
    }
}

// The swaps of a plan: ten places, of which the first `count` are used and the others are 0.
// Kept: without a heap the places stand in an array that is long enough, and C reads such an array and its count.
#[derive(Clone, Copy)]
pub struct Swaps {
    pub places: [usize; 10],
    pub count: usize,
}

// What C sees of the answer: its number, and the plan.
// Kept: the C interface reads a number and the values beside it.
#[repr(C)]
#[derive(Clone, Copy)]
pub struct Planned {
    pub number: u32,
    pub swaps: [usize; 10],
    pub count: usize,
}

impl From<Result<Swaps, Refusal>> for Planned {
    ghost from_gives = { λ answer planned. planned ≡ in_c answer };

    fn from(answer: Result<Swaps, Refusal>) -> Planned {
        match answer {
            Ok(plan) => {
                let swaps = plan.places;
                Planned {
                    number: 0,
                    swaps,
                    count: plan.count,
                }
            }
            Err(refusal) => Planned {
                number: refusal.number(),
                swaps: [0; 10],
                count: 0,
            },
        }
    }
}

// The shortest chain that names an order and, among the shortest, the first in dictionary order.
fn plan_of(axes: &mut [usize]) -> Swaps
    requires few { (length axes.old ≤ 5) × (falling axes.old ≤ 10) }
    requires found { Below (length axes.old - 1) (plan_of axes.old) }
    ensures { result ≡ plan_as (plan_of axes.old) }
{
    let count = steps::falling_pairs(axes);
    let places = steps::planned_swaps(axes, count);
    Swaps { places, count }
}

// The plan of an order, or 7. Inlined, so that a call that knows its axes has their tables alone, and a refusal no frame.
#[inline(always)]
pub fn plan(axes: Axes, order: usize) -> Result<Swaps, Refusal>
    ensures { PlanPromise (count_of axes) order (in_c result) }
{
    if axes.orders() <= order {
        return Err(Refusal::BadOrder);
    }
    let mut labels = [0; 5];
    let labels = &mut labels[..axes.count()];
    labels.copy_from_slice(tables::order_of(axes, order));
    Ok(plan_of(labels))
}
