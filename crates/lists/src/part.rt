ghost use Rattle.std.specs.Prelude.{◌≡◌, ◌-◌};

// The places from `start` to `end` of a memory. It is no Range, which is not Copy. That its ends are in order is a fact of
// each type that holds a part, and not of this one: the checker covers no call that hands back a struct which holds a `&mut`
// beside a fact of a field's own. Where a part is taken, both ends are written out: through a method, every proof would have
// to carry that its range is the part.
#[derive(Clone, Copy)]
pub struct Part {
    pub start: usize,
    pub end: usize,
}

impl Part {
    // The first places of a memory.
    pub fn first(len: usize) -> Part
        ensures { (result.start ≡ 0) × (result.end ≡ len) }
    {
        Part { start: 0, end: len }
    }

    // How many places it has.
    pub fn len(self) -> usize
        ensures { result ≡ self.end - self.start }
    {
        self.end.saturating_sub(self.start)
    }
}
