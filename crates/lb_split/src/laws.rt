// Laws over the definitions. Each is the contract of a function that does nothing.
ghost use Rattle.std.specs.Prelude.{◌≡◌, ◌++◌, ℕ, List};
ghost use Rattle.lb_split.specs.Pieces.{pieces_from, first_of, HasEnded, GoesOnThere};

/// A piece that has ended is the first one in any longer input too, so what reads a stream may take it before the bytes
/// that follow have come; and after a header or a statement reading goes on at the same offset.
pub fn a_piece_that_has_ended_stays()
    ensures piece { (bytes more : List ℕ) (from : ℕ) → HasEnded bytes (first_of (pieces_from bytes from)) → first_of (pieces_from (bytes ++ more) from) ≡ first_of (pieces_from bytes from) }
    ensures next { (bytes more : List ℕ) (from : ℕ) → HasEnded bytes (first_of (pieces_from bytes from)) → GoesOnThere bytes (bytes ++ more) (first_of (pieces_from bytes from)) }
{}
