// Merge and split of runs, by recursion on contiguous parts, the run count falling to one.
ghost use Rattle.recursion.specs.Merge.{Merged};
ghost use Rattle.recursion.specs.Private.{Runs};

use crate::rotation::rotate;

// Merges n runs of p words and the n runs of q words that follow them: p, q, p, q and so on. The halves of two runs are one run each, which is
// already merged: to ask here costs less than to call.
pub(crate) fn merge(s: &mut [u32], n: usize, p: usize, q: usize)
    requires { Runs n p q s.old }
    ensures { Merged n p q s.old s.new }
{
    if n == 1 {
        return;
    }
    let h = n / 2;
    let g = n - h;
    rotate(&mut s[h * p..n * p + h * q], g * p);
    if n == 2 {
        return;
    }
    let (first, second) = s.split_at_mut(h * (p + q));
    merge(first, h, p, q);
    merge(second, g, p, q);
}

// Kept: `merge` and `split` do the same steps in opposite orders, so one function for both would only choose between two bodies.
//
// Splits p, q, p, q and so on into n runs of p words and the n runs of q words that follow them.
pub(crate) fn split(s: &mut [u32], n: usize, p: usize, q: usize)
    requires { Runs n p q s.old }
    ensures { Merged n p q s.new s.old }
{
    if n == 1 {
        return;
    }
    let h = n / 2;
    let g = n - h;
    if 2 < n {
        let (first, second) = s.split_at_mut(h * (p + q));
        split(first, h, p, q);
        split(second, g, p, q);
    }
    rotate(&mut s[h * p..n * p + h * q], h * q);
}
