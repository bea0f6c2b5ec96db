// Where the chosen exchange stands.
ghost use Rattle.std.specs.Prelude.{◌≡◌};
ghost use Rattle.refusals.specs.FirstOf.{first_of};
ghost use Rattle.refusals.specs.Refusal.{answered};
ghost use Rattle.desk.specs.ChoiceConditions.{path_checks};
ghost use Rattle.desk.specs.Private.{ChosenAs};

use crate::search::{beats, best};
use refusals::Refusal;

// The chosen exchange: on the first path or the second, by its number in that run, from 0.
#[derive(Clone, Copy)]
pub(crate) enum Chosen {
    First(usize),
    Second(usize),
}

// The checks that come before any exchange is looked at: 26, 18.
fn check_runs(first: &[i64], second: &[i64]) -> Result<(), Refusal>
    ensures { answered result ≡ first_of (path_checks first.now second.now) }
{
    if first.len() % 4 != 0 || second.len() % 4 != 0 {
        return Err(Refusal::BadRun);
    }
    if crate::far_reading(first) || crate::far_reading(second) {
        return Err(Refusal::FarNumber);
    }
    Ok(())
}

// Where the usable exchange with the smallest delay stands, the first path winning ties and then the earlier exchange; or 26, 18, 19.
pub(crate) fn chosen_at(first: &[i64], second: &[i64]) -> Result<Chosen, Refusal>
    ensures { ChosenAs first.now second.now result }
{
    check_runs(first, second)?;
    let a = best(first);
    let b = best(second);
    let before = a.least;
    let after = b.least;
    if beats(after, before) {
        return Ok(Chosen::Second(b.found));
    }
    if before < 0 {
        return Err(Refusal::NothingUsable);
    }
    Ok(Chosen::First(a.found))
}
