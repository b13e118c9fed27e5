//! How statements may be left.

ghost use Rattle.std.specs.Prelude.{◌≡◌, ◌&&◌, ◌||◌};

/// How a run may leave statements, besides by `return` and `exit`.
#[derive(Clone, Copy, Debug)]
pub struct Ways {
    /// At their end, so that it goes on behind them.
    pub completes: bool,
    /// By a `break` or `continue`, to a loop that they stand in.
    pub jumps_out: bool,
}

// Whether one of two holds.
fn one_of(first: bool, second: bool) -> bool
    ensures { result ≡ (first || second) }
{
    first || second
}

// Whether both hold.
fn both(first: bool, second: bool) -> bool
    ensures { result ≡ (first && second) }
{
    first && second
}

impl Ways {
    /// Of these statements and then of others.
    pub fn then(self, next: Ways) -> Ways
        ensures completes { result.completes ≡ (self.completes && next.completes) }
        ensures jumps { result.jumps_out
            ≡ (self.jumps_out || (self.completes && next.jumps_out)) }
    {
        let completes = both(self.completes, next.completes);
        let later = both(self.completes, next.jumps_out);
        let jumps_out = one_of(self.jumps_out, later);
        Ways {
            completes,
            jumps_out,
        }
    }

    /// Of these statements or of others.
    pub fn beside(self, other: Ways) -> Ways
        ensures completes { result.completes ≡ (self.completes || other.completes) }
        ensures jumps { result.jumps_out ≡ (self.jumps_out || other.jumps_out) }
    {
        let completes = one_of(self.completes, other.completes);
        let jumps_out = one_of(self.jumps_out, other.jumps_out);
        Ways {
            completes,
            jumps_out,
        }
    }

    /// Whether the end of a body that is these statements can be reached.
    pub fn reach_end(self) -> bool
        ensures { result ≡ (self.completes || self.jumps_out) }
    {
        one_of(self.completes, self.jumps_out)
    }
}
