// The plan of an order, swap by swap. An order is lent as a slice, which axis stands at each place: its length is the number of axes.
ghost use Rattle.std.specs.Prelude.{◌≡◌, ◌++◌, map, ◌+◌, ◌-◌, ◌<◌, ◌≤◌, ltb, length, replicate};
ghost use Rattle.layout.specs.Layout.{place_of, Below};
ghost use Rattle.orders.specs.Plans.{under, falling, relabelled, first_back, planned};
ghost use Rattle.plans.specs.Private.{FoundBelow};

// The axis a once the labels k and k + 1 are exchanged.
fn exchanged_label(a: usize, k: usize) -> usize
    requires { k ≤ 5 }
    ensures { result ≡ relabelled k a }
{
    if a == k {
        return k + 1;
    }
    if a == k + 1 {
        return k;
    }
    a
}

// The first place of an axis, if it has one.
fn place_of(axes: &[usize], axis: usize) -> Option<usize>
    ensures { FoundBelow (length axes.now) (place_of axis axes.now) result }
{
    axes.iter().position(|&other| axis == other)
}

// Whether the follower of an axis stands before it. An axis that has no place stands after each one that has.
fn falls(axes: &[usize], axis: usize) -> bool
    requires { axis < length axes.now }
    ensures { result ≡ ltb (place_of (axis + 1) axes.now) (place_of axis axes.now) }
{
    match (place_of(axes, axis + 1), place_of(axes, axis)) {
        (Some(follower), Some(place)) => follower < place,
        (follower, _) => follower.is_some(),
    }
}

// The least axis whose follower stands before it, if there is one.
fn first_back(axes: &[usize]) -> Option<usize>
    ensures { FoundBelow (length axes.now) (first_back (length axes.now) 0 axes.now) result }
{
    (0..axes.len()).find(|&axis| falls(axes, axis))
}

// The order with the labels k and k + 1 exchanged.
fn relabel(axes: &mut [usize], k: usize)
    requires { k ≤ 5 }
    ensures { axes.new ≡ map (relabelled k) axes.old }
{
    for axis in axes {
        *axis = exchanged_label(*axis, k);
    }
}

// How many of the axes are below one.
fn count_under(axes: &[usize], axis: usize) -> usize
    ensures { result ≡ under axis axes.now }
{
    axes.iter().filter(|&&other| other < axis).count()
}

// The pairs of places whose axes stand in falling order, counted.
pub(crate) fn falling_pairs(axes: &[usize]) -> usize
    requires { length axes.now ≤ 5 }
    ensures { result ≡ falling axes.now }
{
    let mut count = 0;
    let mut rest = axes;
    while let Some((&axis, after)) = rest.split_first() {
        count += count_under(after, axis);
        rest = after;
    }
    count
}

// n swaps of the plan: each is the least axis whose follower stands before it, and exchanges those labels.
pub(crate) fn planned_swaps(axes: &mut [usize], n: usize) -> [usize; 10]
    requires few { (length axes.old ≤ 5) × (n ≤ 10) }
    requires found { Below (length axes.old - 1) (planned n axes.old) }
    ensures { result ≡ planned n axes.old ++ replicate (10 - n) 0 }
{
    let mut swaps = [0; 10];
    for swap in &mut swaps[..n] {
        *swap = first_back(axes).unwrap();
        relabel(axes, *swap);
    }
    swaps
}
