// The usable exchange of a run with the smallest delay.
ghost use Rattle.std.specs.Prelude.{◌≡◌, false};
ghost use Rattle.desk.specs.Conditions.{far_reading};
ghost use Rattle.desk.specs.Choice.{exchanges};
ghost use Rattle.desk.specs.Private.{taken, HeldAs};

// The usable exchange of a run with the smallest delay. Where there is none, the delay is negative.
// Kept: a delay below 0 stands for none; with an Option each comparison of two delays would first take it apart.
#[derive(Clone, Copy)]
pub(crate) struct Held {
    pub(crate) found: usize,
    pub(crate) least: i64,
}

// Whether an exchange with this delay is taken over the one held: it can be used, and it is the first that can or has a smaller delay.
pub(crate) fn beats(d: i64, least: i64) -> bool
    ensures { result ≡ taken d least }
{
    if d < 0 {
        return false;
    }
    least < 0 || d < least
}

// The usable exchange of a run with the smallest delay, the earlier winning ties.
pub(crate) fn best(run: &[i64]) -> Held
    requires { far_reading run.now ≡ false }
    ensures { HeldAs run.now (exchanges run.now) result.found result.least }
{
    let (exchanges, _) = run.as_chunks::<4>();
    let mut found = 0;
    let mut least: i64 = -1;
    for (j, exchange) in exchanges.iter().enumerate() {
        let measured = crate::offset_delay(exchange).unwrap();
        let d = measured.delay;
        if beats(d, least) {
            found = j;
            least = d;
        }
    }
    Held { found, least }
}
