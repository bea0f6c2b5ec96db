// A part of a run.
ghost use Rattle.std.specs.Prelude.{◌*◌, ◌<◌};
ghost use Rattle.desk.specs.Choice.{exchanges};
ghost use Rattle.desk.specs.Parts.{PartOf};

// The four readings of exchange j, as a part of its run.
pub(crate) fn exchange_of<'a>(run: &'a [i64], j: usize) -> &'a [i64]
    requires { j < exchanges run.now }
    ensures { PartOf run.entry (4 * j) 4 result }
{
    let at = 4 * j;
    let end = at + 4;
    &run[at..end]
}
