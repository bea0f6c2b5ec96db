// A camera's column taken out of a frames by cameras block within its buffer, and one put in.
#![tactic(auto)]

mod rows;

ghost use Rattle.std.specs.Prelude.{◌≡◌};
ghost use Rattle.refusals.specs.FirstOf.{first_of};
ghost use Rattle.refusals.specs.Refusal.{answered};
ghost use Rattle.cameras.specs.Promises.{remove_checks, add_checks, RemovePromise, AddPromise};

use crate::rows::Gap;
use refusals::Refusal;

// The most words of a block.
const MOST_WORDS: usize = 1048576;

// The most cameras of a block.
const MOST_CAMERAS: usize = 4096;

// Removing: 1, 2, 3, 16.
fn check_remove(buf: &[u32], frames: usize, cameras: usize, column: usize) -> Result<(), Refusal>
    ensures { answered result ≡ first_of (remove_checks frames cameras column buf.now) }
{
    let after = cameras.saturating_sub(1);
    if checks::bad_length(&[frames, cameras, after]) {
        return Err(Refusal::BadLength);
    }
    let words = checks::words_of(&[frames, cameras]);
    if MOST_WORDS < words {
        return Err(Refusal::TooManyWords);
    }
    if buf.len() < words {
        return Err(Refusal::ShortBuffer);
    }
    if after < column {
        return Err(Refusal::BadColumn);
    }
    Ok(())
}

// Adding: 1, 2, 2, 3, 16, 17, 25.
fn check_add(
    buf: &[u32],
    frames: usize,
    cameras: usize,
    column: usize,
    words: &[u32],
) -> Result<(), Refusal>
    ensures { answered result ≡ first_of (add_checks frames cameras column words.now buf.now) }
{
    if MOST_CAMERAS <= cameras || checks::bad_length(&[frames, cameras, cameras + 1]) {
        return Err(Refusal::BadLength);
    }
    let size = frames * cameras;
    let room = size + frames;
    if MOST_WORDS < room {
        return Err(Refusal::TooManyWords);
    }
    if buf.len() < size {
        return Err(Refusal::ShortBuffer);
    }
    if cameras < column {
        return Err(Refusal::BadColumn);
    }
    if buf.len() < room {
        return Err(Refusal::NoRoom);
    }
    if words.len() != frames {
        return Err(Refusal::OtherColumn);
    }
    Ok(())
}

// Removes a column from a block of frames by cameras words within the buffer, or refuses: 1, 2, 3, 16.
pub fn remove(buf: &mut [u32], frames: usize, cameras: usize, column: usize) -> Result<(), Refusal>
    ensures { RemovePromise frames cameras column buf.old (answered result) buf.new }
{
    check_remove(buf, frames, cameras, column)?;
    Gap::new(cameras - 1, column).close(buf, frames);
    moves::zero(buf, frames * (cameras - 1), frames);
    Ok(())
}

// Adds a column of words to a block of frames by cameras words within the buffer, or refuses: 1, 2, 3, 16, 17, 25.
pub fn add(
    buf: &mut [u32],
    frames: usize,
    cameras: usize,
    column: usize,
    words: &[u32],
) -> Result<(), Refusal>
    ensures { AddPromise frames cameras column words.now buf.old (answered result) buf.new }
{
    check_add(buf, frames, cameras, column, words)?;
    Gap::new(cameras, column).open(buf, frames, words);
    Ok(())
}
