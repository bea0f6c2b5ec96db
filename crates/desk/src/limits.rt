// Limits either side of zero.
ghost use Rattle.std.specs.Prelude.{◌≡◌, pos, nat_abs, ◌≤ℤ◌};
ghost use Rattle.refusals.specs.Conditions.{some};
ghost use Rattle.desk.specs.Signed.{beyond as far};

// Whether x lies beyond the limit, either side of zero.
pub(crate) fn beyond(x: i64, limit: i64) -> bool
    requires { pos 0 ≤ℤ limit }
    ensures { result ≡ far (nat_abs limit) x }
{
    limit < x || x < -limit
}

// Whether a number of the run lies beyond the limit, either side of zero.
pub(crate) fn some_beyond(run: &[i64], limit: i64) -> bool
    requires { pos 0 ≤ℤ limit }
    ensures { result ≡ some (far (nat_abs limit)) run.now }
{
    run.iter().any(|&x| beyond(x, limit))
}
