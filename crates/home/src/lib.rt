// How often a flat turn with the same sides is repeated until every block of that shape is home.
#![tactic(auto)]

ghost use Rattle.std.specs.Prelude.{◌≡◌, ◌*◌, ◌<◌, ◌≤◌};
ghost use Rattle.home.specs.Promise.{Counts, RepeatsPromise, in_c};

use refusals::Refusal;

// What C sees of the answer: its number, and the count of repeats.
// Kept: the C interface reads a number and the values beside it.
#[repr(C)]
#[derive(Clone, Copy)]
pub struct Home {
    pub number: u32,
    pub count: usize,
}

impl From<Result<usize, Refusal>> for Home {
    ghost from_gives = { λ answer home. home ≡ in_c answer };

    fn from(answer: Result<usize, Refusal>) -> Home {
        match answer {
            Ok(count) => Home { number: 0, count },
            Err(refusal) => Home {
                number: refusal.number(),
                count: 0,
            },
        }
    }
}

// The least positive power for which m leaves 1 modulo mn - 1: the powers are gone through one by one.
fn count_of(m: usize, n: usize) -> usize
    requires { (0 < m * n) × (m * n ≤ 1048576) × (m ≤ 4096) }
    ensures { Counts m n result }
{
    let words = m * n;
    if words <= 2 {
        return 1;
    }
    let modulus = words - 1;
    let mut power = m % modulus;
    let mut count = 1;
    // Kept: the loop counts the steps that it makes until one leaves 1, so that there is no range and no list to go through. `iter::successors` goes on
    // without an end, and `position` asks for one.
    while power != 1 {
        power = power * m % modulus;
        count += 1;
    }
    count
}

// How many turns of m by n bring every block of that shape back: the fewest, at least one; or 1, 2.
pub fn repeats(m: usize, n: usize) -> Result<usize, Refusal>
    ensures { RepeatsPromise m n (in_c result) }
{
    checks::check_size(&[m, n])?;
    Ok(count_of(m, n))
}
