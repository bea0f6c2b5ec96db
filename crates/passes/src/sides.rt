// The sides of a block with what is known of them, and the lines that they make.
ghost use Rattle.std.specs.Prelude.{cond, ◌≡◌, ◌%◌, ◌<◌, ◌≤◌, ltb, length};
ghost use Rattle.refusals.specs.Scratch.{need, cleared};
ghost use Rattle.flat.specs.Gcd.{gcd_of};
ghost use Rattle.flat.specs.Passes.{row_group, column_group};
ghost use Rattle.flat.specs.Turn.{sides};
ghost use Rattle.passes.specs.Lines.{column, row, skipped, line_count, line_of};

use crate::gcd;
use crate::line::{Line, Pass};

// The sides m and n, their greatest common divisor c and their quotients a and b by it, the remainder of n by m, and how many columns of pass 1 are
// left out.
#[derive(Clone, Copy)]
pub(crate) struct GroupedSides {
    pub m: usize,
    pub n: usize,
    pub a: usize,
    pub b: usize,
    pub c: usize,
    pub remainder: usize,
    pub left_out: usize,
    ghost m_pos: { 0 < m },
    ghost n_pos: { 0 < n },
    ghost m_few: { m ≤ 4096 },
    ghost n_few: { n ≤ 4096 },
    ghost a_is: { a ≡ row_group m n },
    ghost b_is: { b ≡ column_group m n },
    ghost c_is: { c ≡ gcd_of m n },
    ghost remainder_is: { remainder ≡ n % m },
    ghost left_out_is: { left_out ≡ skipped m n },
}

// How many columns of pass 1 are left out: all n of them where the sides share no factor above 1.
fn left_out(n: usize, c: usize) -> usize
    ensures { result ≡ cond (ltb 1 c) 0 n }
{
    if 1 < c { 0 } else { n }
}

impl GroupedSides {
    // The sides of an m by n block, with what the lines need of them.
    pub(crate) fn new(m: usize, n: usize) -> GroupedSides
        requires { (0 < m) × (0 < n) × (m ≤ 4096) × (n ≤ 4096) }
        ensures { (result.m ≡ m) × (result.n ≡ n) }
    {
        let c = gcd::gcd(m, n);
        GroupedSides {
            m,
            n,
            a: m / c,
            b: n / c,
            c,
            remainder: n % m,
            left_out: left_out(n, c),
        }
    }

    // The longer side, which a line needs of scratch.
    pub(crate) fn longest(self) -> usize
        ensures { result ≡ need (sides self.m self.n) }
    {
        checks::longest_of(&[self.m, self.n])
    }

    // Zeroes as many first words of scratch as the longer side has.
    pub(crate) fn clear(self, scratch: &mut [u32])
        requires { need (sides self.m self.n) ≤ length scratch.old }
        ensures { scratch.new ≡ cleared (need (sides self.m self.n)) scratch.old }
    {
        moves::zero(scratch, 0, self.longest());
    }

    // How many lines the passes have.
    pub(crate) fn line_count(self) -> usize
        ensures { result ≡ line_count self.m self.n }
    {
        self.n + self.m + self.n - self.left_out
    }

    // Column j of a pass.
    pub(crate) fn column(self, pass: Pass, j: usize) -> Line
        ensures { result ≡ column self.m self.n pass j }
    {
        Line {
            pass,
            index: j,
            start: j,
            stride: self.n,
            count: self.m,
        }
    }

    // Row i of pass 2.
    pub(crate) fn row(self, i: usize) -> Line
        requires { i ≤ 4096 }
        ensures { result ≡ row self.n i }
    {
        Line {
            pass: Pass::Second,
            index: i,
            start: i * self.n,
            stride: 1,
            count: self.n,
        }
    }

    // Line l of a block, counted from 0 across the passes.
    pub(crate) fn line_of(self, l: usize) -> Line
        requires { l < line_count self.m self.n }
        ensures { result ≡ line_of self.m self.n l }
    {
        let t = self.left_out + l;
        if t < self.n {
            return self.column(Pass::First, t);
        }
        if t < self.n + self.m {
            return self.row(t - self.n);
        }
        self.column(Pass::Third, t - (self.n + self.m))
    }
}
