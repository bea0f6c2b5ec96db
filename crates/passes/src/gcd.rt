// The greatest common divisor, and inverses, by Euclid's algorithm.
ghost use Rattle.std.specs.Prelude.{◌≡◌};
ghost use Rattle.flat.specs.Gcd.{gcd_of};
ghost use Rattle.walks.specs.PrivateSource.{Inverse};
ghost use Rattle.passes.specs.PrivateScratch.{Coprime};

// The greatest common divisor of m and n.
pub(crate) fn gcd(m: usize, n: usize) -> usize
    ensures { result ≡ gcd_of m n }
{
    let mut x = m;
    let mut y = n;
    // Divides: once a step of Euclid, a few times a turn.
    // Kept: Euclid's algorithm goes through no range and no list, so that no `for` or iterator says it more plainly.
    while y != 0 {
        (x, y) = (y, x % y);
    }
    x
}

// The inverse of a modulo b: y and x go down as for the greatest common divisor, and v times a leaves y, u times a leaves x modulo b.
pub(crate) fn inverse(a: usize, b: usize) -> usize
    requires { Coprime a b }
    ensures { Inverse a b result }
{
    let mut y = b;
    let mut x = a % b;
    let mut v = 0;
    let mut u = 1 % b;
    // Divides: a few times a step of Euclid, which a turn or a tick makes once.
    // Kept: as in `gcd`, there is no range and no list to go through.
    while x != 0 {
        (v, u) = (u, (v + (b - y / x * u % b)) % b);
        (y, x) = (x, y % x);
    }
    v
}
