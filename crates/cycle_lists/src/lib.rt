// The cycles of a flat turn: lists of them, bought from elsewhere, judged and run, start and length of every cycle in rising order.
#![tactic(auto)]

mod turn;

ghost use Rattle.std.specs.Prelude.{◌≡◌, [], ◌∷◌, ◌++◌, take, MatchOption};
ghost use Rattle.cycle_lists.specs.Promise.{JudgePromise, RunPromise, in_c};
ghost use Rattle.cycle_lists.specs.Private.{Compared};

use crate::turn::Turn;
use refusals::{Refusal, Refused};

// What C sees of the answer: its number, and for 22 the place of the first pair that differs.
// Kept: the C interface reads a number and the values beside it.
#[repr(C)]
#[derive(Clone, Copy)]
pub struct Judged {
    pub number: u32,
    pub place: usize,
}

impl From<Result<(), Refused>> for Judged {
    ghost from_gives = { λ answer judged. judged ≡ in_c answer };

    fn from(answer: Result<(), Refused>) -> Judged {
        match answer {
            Ok(()) => Judged {
                number: 0,
                place: 0,
            },
            Err(refused) => Judged {
                number: refused.refusal.number(),
                place: refused.place,
            },
        }
    }
}

// What follows the pair of this start and this length, if a list begins with it.
// Kept: a word becomes a `usize` by `as`: the library has no `From<u32>` for it, and `try_from` would answer an error that none gives.
fn after_pair(list: &[u32], start: usize, count: usize) -> Option<&[u32]>
    ensures { MatchOption result (take 2 list.now ≡ start ∷ count ∷ [] → ⊥) (λ rest. list.now ≡ start ∷ count ∷ rest.now) }
{
    let [first, second, rest @ ..] = list else {
        return None;
    };
    (*first as usize == start && *second as usize == count).then_some(rest)
}

// The list against the right one: offset by offset, each that is the least of its cycle must be the next pair, and no more may follow.
fn compare(list: &[u32], turn: Turn) -> Result<(), Refused>
    ensures { Compared turn.m turn.n list.now (in_c result) }
{
    let mut rest = list;
    // Kept: the place counts the pairs that are found, and not the offsets that the loop goes over.
    let mut place = 0;
    for start in 0..turn.words() {
        let Some(count) = turn.length_from(start) else {
            continue;
        };
        rest = after_pair(rest, start, count).ok_or(Refused {
            refusal: Refusal::OtherCycles,
            place,
        })?;
        place += 1;
    }
    if !rest.is_empty() {
        return Err(Refused {
            refusal: Refusal::OtherCycles,
            place,
        });
    }
    Ok(())
}

// Judges a list of the cycles of a turn of m by n; or 1, 2, or 22 with the place of the first pair that differs from the right list.
pub fn judge(list: &[u32], m: usize, n: usize) -> Result<(), Refused>
    ensures { JudgePromise m n list.now (in_c result) }
{
    checks::check_size(&[m, n])?;
    compare(list, Turn::new(m, n))
}

// Runs a list of the cycles of a turn of m by n on the block within its buffer: the flat turn, without scratch; or 1, 2, 3, 13, 22.
pub fn run(list: &[u32], buf: &mut [u32], m: usize, n: usize) -> Result<(), Refused>
    ensures { RunPromise m n list.now buf.old (in_c result) buf.new }
{
    checks::check_block(&[m, n], buf)?;
    let turn = Turn::new(m, n);
    compare(list, turn)?;
    turn.follow_all(list, buf);
    Ok(())
}
