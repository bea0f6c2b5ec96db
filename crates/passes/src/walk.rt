// Walks: the places that a line receives its words from, in rising place, with no division for a word or a run.
ghost use Rattle.std.specs.Prelude.{◌≡◌, ℕ, ◌+◌, ◌%◌, ◌<◌, ◌≤◌};
ghost use Rattle.passes.specs.declared.walk.Place.{Place};
ghost use Rattle.passes.specs.PrivateWalks.{begun, risen, arrived, Follows, Ahead};

// A walk over groups of `size` places. In a group the place goes up by `step` modulo `modulus`. Each group starts `turn` on from where the one before
// started, modulo `round`. Where a group has its break, at its place `split`, the place goes one more up, modulo `round`.
#[derive(Clone, Copy)]
pub(crate) struct Walk {
    pub step: usize,
    pub modulus: usize,
    pub size: usize,
    pub turn: usize,
    pub round: usize,
    pub split: usize,
}

// Where a walk stands: at `place`, which is place `group` of its group; the group started at `lap`.
#[derive(Clone, Copy)]
pub(crate) struct Place {
    pub place: usize,
    pub group: usize,
    pub lap: usize,
}

// A run: `size` steps of a walk from `place` on, over against as many places of a line from `from` on.
#[derive(Clone, Copy)]
pub(crate) struct Run {
    pub from: usize,
    pub place: usize,
    pub size: usize,
}

// The place a step on, modulo the modulus.
pub(crate) fn step_on(place: usize, step: usize, modulus: usize) -> usize
    requires { (place < modulus) × (step ≤ modulus) }
    ensures { result ≡ (place + step) % modulus }
{
    let gap = modulus - step;
    if place < gap {
        return place + step;
    }
    place - gap
}

impl Place {
    // A walk over one group of places, in their own order, stands at a row.
    pub(crate) fn risen(row: usize) -> Place
        ensures { result ≡ risen row }
    {
        Place {
            place: row,
            group: row,
            lap: 0,
        }
    }

    // A walk stands at the first place of a group that starts at a row.
    pub(crate) fn begun(row: usize) -> Place
        ensures { result ≡ begun row }
    {
        Place {
            place: row,
            group: 0,
            lap: row,
        }
    }
}

impl Walk {
    // A walk over `count` places whose groups have one place each is one group, which goes by turns.
    pub(crate) fn joined(self, count: usize) -> Walk
        ensures { (p : Place) (f : ℕ → ℕ) → Follows self p count f → Follows result p count f }
    {
        if self.size == 1 {
            return Walk {
                step: self.turn,
                modulus: self.round,
                size: count,
                turn: 0,
                round: self.round,
                split: 0,
            };
        }
        self
    }

    // How many places lie ahead in the run: up to the break of the group, or to its end.
    pub(crate) fn ahead(self, p: Place) -> usize
        requires { p.group < self.size }
        ensures { Ahead self p result }
    {
        if p.group < self.split && self.split < self.size {
            return self.split - p.group;
        }
        self.size - p.group
    }

    // Where a walk stands that has gone from a place over a run, to the end of a group or to its break.
    pub(crate) fn after_run(self, p: Place, size: usize) -> Place
        requires { (p.lap < self.round) × (self.turn ≤ self.round) × (self.round ≤ 4096) × (self.step ≤ 4096) × (p.group + size ≤ 4096) }
        ensures { result ≡ arrived self p.lap (p.group + size) }
    {
        let group = p.group + size;
        if group == self.size {
            return Place::begun(step_on(p.lap, self.turn, self.round));
        }
        let column = step_on(p.lap, 1, self.round);
        Place {
            place: group * self.step + column,
            group,
            lap: p.lap,
        }
    }
}
