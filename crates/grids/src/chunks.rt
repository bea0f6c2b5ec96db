// A block of chunks turned: chunks move along the cycles of the turn, two mirrored ones at a time, and each pair of places that have their chunks is
// marked.
ghost use Rattle.std.specs.Prelude.{false, ◌≡◌, ◌+◌, ◌*◌, ◌-◌, ◌<◌, ◌≤◌, length, get_or};
ghost use Rattle.moves.specs.Stretch.{Stretch, Traded};
ghost use Rattle.grids.specs.Grids.{GridTurned};
ghost use Rattle.grids.specs.Promises.{Turnable};
ghost use Rattle.grids.specs.Private.{mirror, fold, half, pairs, bit_at, Fits, MarkedToo, Level, Waiting, BothHold, BothFrom, BothTraded, Crossed, Toured, Arrived};

use crate::grid::Grid;
use crate::marks;

// Kept: that a grid fits its buffer is asked of each function here, since it is about both; a struct of the two would be lent at each call, and taken
// apart in it.

// Place p receives the chunk of another place x.
fn carry(buf: &mut [u32], g: Grid, p: usize, x: usize)
    requires { Fits g buf.old × (p < g.n * g.m) × (x < g.n * g.m) × (p ≡ x → ⊥) }
    ensures { Stretch (p * g.chunk) g.chunk (λ u. get_or buf.old (x * g.chunk + u) 0) buf.old buf.new }
{
    moves::hand(buf, p * g.chunk, x * g.chunk, g.chunk);
}

// The chunk of place p waits at `to`.
fn keep(kept: &mut [u32; 160], to: usize, buf: &[u32], g: Grid, p: usize)
    requires { Fits g buf.now × (p < g.n * g.m) × (to + g.chunk ≤ 160) }
    ensures { Stretch to g.chunk (λ u. get_or buf.now (p * g.chunk + u) 0) kept.old kept.new }
{
    moves::copy(kept, to, buf, p * g.chunk, g.chunk);
}

// Place p receives the chunk that waits at `from`.
fn put(buf: &mut [u32], g: Grid, p: usize, kept: &[u32; 160], from: usize)
    requires { Fits g buf.old × (p < g.n * g.m) × (from + g.chunk ≤ 160) }
    ensures { Stretch (p * g.chunk) g.chunk (λ u. get_or kept.now (from + u) 0) buf.old buf.new }
{
    moves::copy(buf, p * g.chunk, kept, from, g.chunk);
}

// Marks the pair of place x.
fn mark_pair(marks: &mut [u32], g: Grid, x: usize)
    requires { (x < g.n * g.m) × (g.n * g.m ≤ 64 * length marks.old) }
    ensures { MarkedToo (fold (g.n * g.m) x) marks.old marks.new }
{
    marks::mark(marks, g.folded(x));
}

// The chunks of place p and of its mirrored one wait.
fn keep_both(kept: &mut [u32; 160], buf: &[u32], g: Grid, p: usize)
    requires { Fits g buf.now × (p < g.n * g.m) × (g.chunk ≤ 80) }
    ensures { Waiting (g.n * g.m) g.chunk p buf.now kept.new }
{
    keep(kept, 0, buf, g, p);
    keep(kept, 80, buf, g, g.mirrored(p));
}

// Place p receives the chunk of place x, and its mirrored place that of the mirrored one.
fn carry_both(buf: &mut [u32], g: Grid, p: usize, x: usize)
    requires fits { Fits g buf.old × (p < g.n * g.m) × (x < g.n * g.m) }
    requires apart { (p ≡ x → ⊥) × (p ≡ mirror (g.n * g.m) p → ⊥) × (mirror (g.n * g.m) x ≡ p → ⊥) }
    ensures { BothFrom (g.n * g.m) g.chunk p x buf.old buf.new }
{
    carry(buf, g, p, x);
    carry(buf, g, g.mirrored(p), g.mirrored(x));
}

// The same, and the pair of x is marked: its places are free then.
fn advance(buf: &mut [u32], marks: &mut [u32], g: Grid, p: usize, x: usize)
    requires fits { Fits g buf.old × (p < g.n * g.m) × (x < g.n * g.m) × (g.n * g.m ≤ 64 * length marks.old) }
    requires apart { (p ≡ x → ⊥) × (p ≡ mirror (g.n * g.m) p → ⊥) × (mirror (g.n * g.m) x ≡ p → ⊥) }
    ensures both_from { BothFrom (g.n * g.m) g.chunk p x buf.old buf.new }
    ensures marked_too { MarkedToo (fold (g.n * g.m) x) marks.old marks.new }
{
    carry_both(buf, g, p, x);
    mark_pair(marks, g, x);
}

// Place p receives the chunk that waits at `from`, 0 or 80, and its mirrored place the other one.
fn put_both(buf: &mut [u32], g: Grid, p: usize, kept: &[u32; 160], from: usize)
    requires { Fits g buf.old × (p < g.n * g.m) × (g.chunk ≤ 80) × (from ≤ 80) × (p ≡ mirror (g.n * g.m) p → ⊥) }
    ensures { BothHold (g.n * g.m) g.chunk p (λ u. get_or kept.now (from + u) 0) (λ u. get_or kept.now (80 - from + u) 0) buf.old buf.new }
{
    put(buf, g, p, kept, from);
    put(buf, g, g.mirrored(p), kept, 80 - from);
}

// Where the chunk of x waits, which is the first place or the mirrored one.
fn waits(x: usize, first: usize) -> usize
    ensures { (result ≤ 80) × (x ≡ first → result ≡ 0) × ((x ≡ first → ⊥) → result ≡ 80) }
{
    if x == first { 0 } else { 80 }
}

// Every place on the cycle of `first` receives the chunk of its source, every mirrored place that of the mirrored source, and the pair of each is
// marked. The chunks of `first` and of its mirrored place wait; p and its mirrored place are free. The cycle may come to the place that mirrors
// `first`: then it is its own mirrored one and done by half, and what waits goes crosswise.
fn follow(buf: &mut [u32], marks: &mut [u32], kept: &mut [u32; 160], g: Grid, first: usize)
    requires fits { Fits g buf.old × (g.n * g.m ≤ 64 * length marks.old) × (g.chunk ≤ 80) }
    requires level { Level (pairs g.n g.m) (half (g.n * g.m)) marks.old × (first < mirror (g.n * g.m) first) × (bit_at marks.old first ≡ false) }
    ensures { Toured g.n g.m g.chunk first buf.old marks.old buf.new marks.new }
{
    keep_both(kept, buf, g, first);
    let mut p = first;
    let mut x = g.source(p);
    marks::mark(marks, first);
    while g.folded(x) != first {
        advance(buf, marks, g, p, x);
        p = x;
        x = g.source(p);
    }
    put_both(buf, g, p, kept, waits(x, first));
}

// Places p and x trade their chunks.
fn trade(buf: &mut [u32], g: Grid, p: usize, x: usize)
    requires { Fits g buf.old × (p < g.n * g.m) × (x < g.n * g.m) × (p ≡ x → ⊥) }
    ensures { Traded (p * g.chunk) (x * g.chunk) g.chunk buf.old buf.new }
{
    moves::trade(buf, p * g.chunk, x * g.chunk, g.chunk);
}

// Places p and x trade their chunks, and their mirrored places trade theirs.
fn trade_both(buf: &mut [u32], g: Grid, p: usize, x: usize)
    requires fits { Fits g buf.old × (p < g.n * g.m) × (x < g.n * g.m) × (x ≡ mirror (g.n * g.m) x → ⊥) }
    requires apart { (p ≡ x → ⊥) × (p ≡ mirror (g.n * g.m) p → ⊥) × (mirror (g.n * g.m) x ≡ p → ⊥) }
    ensures { BothTraded (g.n * g.m) g.chunk p x buf.old buf.new }
{
    trade(buf, g, p, x);
    trade(buf, g, g.mirrored(p), g.mirrored(x));
}

// The same, and the pair of x is marked.
fn trade_on(buf: &mut [u32], marks: &mut [u32], g: Grid, p: usize, x: usize)
    requires fits { Fits g buf.old × (p < g.n * g.m) × (x < g.n * g.m) × (x ≡ mirror (g.n * g.m) x → ⊥) × (g.n * g.m ≤ 64 * length marks.old) }
    requires apart { (p ≡ x → ⊥) × (p ≡ mirror (g.n * g.m) p → ⊥) × (mirror (g.n * g.m) x ≡ p → ⊥) }
    ensures both_traded { BothTraded (g.n * g.m) g.chunk p x buf.old buf.new }
    ensures marked_too { MarkedToo (fold (g.n * g.m) x) marks.old marks.new }
{
    trade_both(buf, g, p, x);
    mark_pair(marks, g, x);
}

// Place p and its mirrored one trade their chunks, unless x is the first place.
fn cross(buf: &mut [u32], g: Grid, p: usize, x: usize, first: usize)
    requires { Fits g buf.old × (p < g.n * g.m) × (p ≡ mirror (g.n * g.m) p → ⊥) }
    ensures { Crossed (g.n * g.m) g.chunk p x first buf.old buf.new }
{
    if x == first {
        return;
    }
    trade(buf, g, p, g.mirrored(p));
}

// The same as `follow` by trades, so that nothing waits: p and its mirrored place hold what `first` and its mirrored place held.
fn tour(buf: &mut [u32], marks: &mut [u32], g: Grid, first: usize)
    requires fits { Fits g buf.old × (g.n * g.m ≤ 64 * length marks.old) }
    requires level { Level (pairs g.n g.m) (half (g.n * g.m)) marks.old × (first < mirror (g.n * g.m) first) × (bit_at marks.old first ≡ false) }
    ensures { Toured g.n g.m g.chunk first buf.old marks.old buf.new marks.new }
{
    let mut p = first;
    let mut x = g.source(p);
    marks::mark(marks, first);
    while g.folded(x) != first {
        trade_on(buf, marks, g, p, x);
        p = x;
        x = g.source(p);
    }
    cross(buf, g, p, x, first);
}

// The cycle of `first` and the mirrored one are gone along: chunks of more than 80 words trade places, shorter ones wait.
fn cycle(buf: &mut [u32], marks: &mut [u32], kept: &mut [u32; 160], g: Grid, first: usize)
    requires fits { Fits g buf.old × (g.n * g.m ≤ 64 * length marks.old) }
    requires level { Level (pairs g.n g.m) (half (g.n * g.m)) marks.old × (first < mirror (g.n * g.m) first) × (bit_at marks.old first ≡ false) }
    ensures { Toured g.n g.m g.chunk first buf.old marks.old buf.new marks.new }
{
    if 80 < g.chunk {
        tour(buf, marks, g, first);
        return;
    }
    follow(buf, marks, kept, g, first);
}

// Turns the block, cycle after cycle. The first chunk, the last one and, of an odd number, the one in the middle stay.
fn cycles(buf: &mut [u32], marks: &mut [u32], kept: &mut [u32; 160], g: Grid)
    requires { Fits g buf.old × (g.n * g.m ≤ 64 * length marks.old) }
    ensures { Arrived g.n g.m g.chunk buf.old buf.new }
{
    let places = g.places();
    let middle = places / 2;
    moves::zero(marks, 0, places.div_ceil(64));
    for p in 1..middle {
        if !marks::marked(marks, p) {
            cycle(buf, marks, kept, g, p);
        }
    }
}

// Turns the block. All chunks stay where a side is 1.
pub(crate) fn turned(buf: &mut [u32], marks: &mut [u32], m: usize, n: usize, chunk: usize)
    requires { Turnable m n chunk buf.old marks.old }
    ensures { GridTurned m n chunk buf.old buf.new × (length marks.new ≡ length marks.old) }
{
    if m == 1 || n == 1 {
        return;
    }
    let mut kept = [0; 160];
    cycles(buf, marks, &mut kept, Grid::new(m, n, chunk));
}
