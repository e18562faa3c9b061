// What a program may ask of the world around it.
ghost use Rattle.std.specs.Prelude.{◌<◌, ◌∷◌, List, ℕ, ℤ, [], length, Option, IfOk};
ghost use Rattle.std.specs.Io.{ReadsAtMost, WritesAtMost};
ghost use Rattle.std.specs.Io.KnownBytes.{ReadConsumes, WriteAppends};
ghost use Rattle.lb_wire.specs.Causes.{HasCause};
ghost use Rattle.lb_base.specs.Days.{IsDay};
ghost use Rattle.lb_wire.specs.Told.{GrewBy};

/// A source or a sink failed. Its count of faults has risen.
#[derive(Clone, Copy, Debug, PartialEq, Eq)]
pub struct Failed;

/// Where bytes come from.
pub trait Source {
    /// The bytes that are left, where the source tells them.
    ghost left: { Self → Option (List ℕ) };

    /// How often it has failed. The count never falls, and at 2^64 - 1 it may stand still.
    ghost faults: { Self → ℕ };

    /// Reads some bytes into the front of `buf`, which has room for one at least, and answers how
    /// many. They are the first of those that were left, and the others stay left. It answers 0
    /// exactly where none is left.
    ///
    /// `Failed`, which takes nothing, comes only where the count of faults rose in this call.
    fn read(&mut self, buf: &mut [u8]) -> Result<usize, Failed>
        requires { 0 < length buf.old }
        ensures bound { ReadsAtMost result buf.new }
        ensures bytes { ReadConsumes (left self.old) (left self.new) result buf.new }
        ensures cause { HasCause (faults self.old) (faults self.new) result };
}

/// Where bytes go.
pub trait Sink {
    /// The bytes that were written, where the sink tells them.
    ghost written: { Self → Option (List ℕ) };

    /// How often it has failed. The count never falls, and at 2^64 - 1 it may stand still.
    ghost faults: { Self → ℕ };

    /// Writes the first bytes of `piece`, and answers how many: at least one, unless `piece` is
    /// empty.
    ///
    /// `Failed`, which writes nothing, comes only where the count of faults rose in this call.
    fn put(&mut self, piece: &[u8]) -> Result<usize, Failed>
        ensures bound { WritesAtMost result piece.now }
        ensures some { IfOk result (λ n. 0 < length piece.now → 0 < n) }
        ensures bytes { WriteAppends (written self.old) (written self.new) result piece.now }
        ensures cause { HasCause (faults self.old) (faults self.new) result };
}

/// What gives the day.
pub trait Clock {
    /// The days that it has given so far, where the clock tells them. It may stop telling them.
    ghost given: { Self → Option (List ℤ) };

    /// The day, counted from 1970-01-01, from -719162 (0001-01-01) to 2932896 (9999-12-31). It
    /// can't fail.
    fn today(&mut self) -> i32
        ensures range { IsDay result }
        ensures days { GrewBy (given self.old) (given self.new) (result ∷ []) };
}
