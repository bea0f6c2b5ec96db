// The join desk: the offset and the delay of an exchange, an offset in frames, the frames that are common to all cameras.
#![tactic(auto)]

mod extremes;
mod limits;
mod parts;
mod paths;
mod search;

ghost use Rattle.std.specs.Prelude.{◌≡◌};
ghost use Rattle.refusals.specs.FirstOf.{first_of};
ghost use Rattle.refusals.specs.Refusal.{answered};
ghost use Rattle.desk.specs.Conditions.{far_reading, measure_checks, frames_checks, shift_checks};
ghost use Rattle.desk.specs.ChoicePromises.{ChoosePromise, ChooseNumberPromise};
ghost use Rattle.desk.specs.Promises.{OffsetDelayPromise, ToFramesPromise, JoinPromise, measured_in_c, frames_in_c, joined_in_c};

use extremes::span_of;
use limits::{beyond, some_beyond};
use parts::exchange_of;
use paths::{Chosen, chosen_at};
use refusals::Refusal;
use std::ops::Range;

// The offset between two clocks, and the delay of the exchange that tells it.
#[derive(Clone, Copy)]
pub struct Offset {
    pub offset: i64,
    pub delay: i64,
}

// What C sees of an offset and a delay: the number, and both, 0 where the call was refused.
// Kept: the C interface reads a number and the values beside it.
#[repr(C)]
#[derive(Clone, Copy)]
pub struct Measured {
    pub number: u32,
    pub offset: i64,
    pub delay: i64,
}

impl From<Result<Offset, Refusal>> for Measured {
    ghost from_gives = { λ answer seen. seen ≡ measured_in_c answer };

    fn from(answer: Result<Offset, Refusal>) -> Measured {
        match answer {
            Ok(Offset { offset, delay }) => Measured {
                number: 0,
                offset,
                delay,
            },
            Err(refusal) => Measured {
                number: refusal.number(),
                offset: 0,
                delay: 0,
            },
        }
    }
}

// What C sees of an offset in frames: the number, and the frames, 0 where the call was refused.
// Kept: the C interface reads a number and the values beside it.
#[repr(C)]
#[derive(Clone, Copy)]
pub struct Frames {
    pub number: u32,
    pub frames: i64,
}

impl From<Result<i64, Refusal>> for Frames {
    ghost from_gives = { λ answer seen. seen ≡ frames_in_c answer };

    fn from(answer: Result<i64, Refusal>) -> Frames {
        match answer {
            Ok(frames) => Frames { number: 0, frames },
            Err(refusal) => Frames {
                number: refusal.number(),
                frames: 0,
            },
        }
    }
}

// What C sees of joining: the number, and the common frames, which run from first up to, not including, end; 0 and 0 where the call was refused.
// Kept: the C interface reads a number and the values beside it.
#[repr(C)]
#[derive(Clone, Copy)]
pub struct Joined {
    pub number: u32,
    pub first: i64,
    pub end: i64,
}

impl From<Result<Range<i64>, Refusal>> for Joined {
    ghost from_gives = { λ answer seen. seen ≡ joined_in_c answer };

    fn from(answer: Result<Range<i64>, Refusal>) -> Joined {
        match answer {
            Ok(common) => Joined {
                number: 0,
                first: common.start,
                end: common.end,
            },
            Err(refusal) => Joined {
                number: refusal.number(),
                first: 0,
                end: 0,
            },
        }
    }
}

// 2 to the 60th and to the 61st.
const READING_LIMIT: i64 = 1 << 60;

const SHIFT_LIMIT: i64 = 1 << 61;

// The most ticks of a frame.
const MOST_TICKS: usize = 1_000_000;

// Whether a reading of the run lies beyond 2 to the 60th either side of zero.
pub(crate) fn far_reading(run: &[i64]) -> bool
    ensures { result ≡ far_reading run.now }
{
    some_beyond(run, READING_LIMIT)
}

// Offset and delay: 26, 18.
fn check_measure(run: &[i64]) -> Result<(), Refusal>
    ensures { answered result ≡ first_of (measure_checks run.now) }
{
    if run.len() != 4 {
        return Err(Refusal::BadRun);
    }
    if far_reading(run) {
        return Err(Refusal::FarNumber);
    }
    Ok(())
}

// The offset and the delay of one exchange of four readings; or 26, 18.
pub fn offset_delay(run: &[i64]) -> Result<Offset, Refusal>
    ensures { OffsetDelayPromise run.now (measured_in_c result) }
{
    check_measure(run)?;
    let t1 = run[0];
    let t2 = run[1];
    let t3 = run[2];
    let t4 = run[3];
    let sum = (t2 - t1) + (t3 - t4);
    let delay = (t4 - t1) - (t3 - t2);
    Ok(Offset {
        offset: sum >> 1,
        delay,
    })
}

// To frames: 21, 18.
fn check_frames(offset: i64, ticks: usize) -> Result<(), Refusal>
    ensures { answered result ≡ first_of (frames_checks offset ticks) }
{
    if ticks == 0 || MOST_TICKS < ticks {
        return Err(Refusal::BadTicks);
    }
    if beyond(offset, SHIFT_LIMIT) {
        return Err(Refusal::FarNumber);
    }
    Ok(())
}

// The whole number of frames nearest to an offset in ticks, an exact half towards plus infinity; or 21, 18.
pub fn to_frames(offset: i64, ticks: usize) -> Result<i64, Refusal>
    ensures { ToFramesPromise offset ticks (frames_in_c result) }
{
    check_frames(offset, ticks)?;
    // Kept: the check leaves at most a million ticks, so `as` keeps the number. `i64::try_from` would answer an error that no call can meet.
    let t = ticks as i64;
    Ok((offset + offset + t).div_euclid(t + t))
}

// The checks of joining that come before any frame is looked for: 1, 18.
fn check_shifts(shifts: &[i64], frames: usize) -> Result<(), Refusal>
    ensures { answered result ≡ first_of (shift_checks shifts.now frames) }
{
    if checks::bad_length(&[shifts.len(), frames]) {
        return Err(Refusal::BadLength);
    }
    if some_beyond(shifts, SHIFT_LIMIT) {
        return Err(Refusal::FarNumber);
    }
    Ok(())
}

// The frames that are common to all cameras, one shift a camera and as many frames each; or 1, 18, 20.
pub fn join(shifts: &[i64], frames: usize) -> Result<Range<i64>, Refusal>
    ensures { JoinPromise shifts.now frames (joined_in_c result) }
{
    check_shifts(shifts, frames)?;
    let span = span_of(shifts);
    let first = span.high;
    // Kept: the check leaves at most 4,096 frames, so `as` keeps the number. `i64::try_from` would answer an error that no call can meet.
    let end = span.low + frames as i64;
    if end <= first {
        return Err(Refusal::NoneCommon);
    }
    Ok(first..end)
}

// The four readings of the usable exchange with the smallest delay, as a part of the run that holds it; refused, the empty start of the first run.
pub fn choose<'a>(first: &'a [i64], second: &'a [i64]) -> &'a [i64]
    ensures { ChoosePromise first.entry second.entry result }
{
    match chosen_at(first, second) {
        Ok(Chosen::First(exchange)) => exchange_of(first, exchange),
        Ok(Chosen::Second(exchange)) => exchange_of(second, exchange),
        Err(_) => &first[..0],
    }
}

// The number of that choice, 0 where it was accepted.
// Kept: ChooseNumberPromise and choose_number_once speak of the number alone, which C asks for by itself.
pub fn choose_number(first: &[i64], second: &[i64]) -> u32
    ensures { ChooseNumberPromise first.now second.now result }
{
    match chosen_at(first, second) {
        Ok(_) => 0,
        Err(refusal) => refusal.number(),
    }
}
