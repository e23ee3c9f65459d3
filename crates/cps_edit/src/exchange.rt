//! Two runs of lines that change places.
ghost use Rattle.std.specs.Prelude.{◌≡◌, ◌≤◌, length};
ghost use Rattle.cps_edit.specs.Exchange.{IsWithin, back_of, exchanged, is_idle as is_idle_by, move};

/// Two runs of lines that stand side by side and change places: the lines after the first `keep`, up to the first `mid`, and the lines after these, up to the
/// first `from`.
#[derive(Clone, Copy)]
pub struct Exchange {
    pub keep: usize,
    pub mid: usize,
    pub from: usize,
}

impl Exchange {
    /// The lines from `first` to `last` go after line `after`, 0 for the front. Lines count from 1, as they stand before the move.
    pub fn of_move(first: usize, last: usize, after: usize) -> Exchange
        requires { 1 ≤ first }
        ensures { result ≡ move first last after }
    {
        if after < first {
            return Exchange {
                keep: after,
                mid: first - 1,
                from: last,
            };
        }
        Exchange {
            keep: first - 1,
            mid: last,
            from: after,
        }
    }

    /// Whether a run has no line: then nothing changes its place.
    pub fn is_idle(self) -> bool
        ensures { result ≡ is_idle_by self }
    {
        self.keep == self.mid || self.mid == self.from
    }

    /// The exchange that undoes this one.
    pub fn back(self) -> Exchange
        requires first { self.keep ≤ self.mid }
        requires second { self.mid ≤ self.from }
        ensures { result ≡ back_of self }
    {
        Exchange {
            keep: self.keep,
            mid: self.keep + (self.from - self.mid),
            from: self.from,
        }
    }

    /// Exchanges the two runs of a list. Takes no memory.
    pub fn turn<T>(self, items: &mut [T])
        requires { IsWithin (length items.old) self }
        ensures { items.new ≡ exchanged self items.old }
    {
        items[self.keep..self.from].rotate_left(self.mid - self.keep);
    }
}
