// What C sees of an answer that holds nothing: its number.
ghost use Rattle.std.specs.Prelude.{◌≡◌};
ghost use Rattle.refusals.specs.Refusal.{answered};

use refusals::Refusal;

// The number of a refusal, 0 where the call was accepted.
pub(crate) fn number_of(answer: Result<(), Refusal>) -> u32
    ensures { result ≡ answered answer }
{
    match answer {
        Ok(()) => 0,
        Err(refusal) => refusal.number(),
    }
}
