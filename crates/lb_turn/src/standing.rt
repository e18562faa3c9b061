//! What a value under a turn stands for: the trait by which the layer above says what its history and its roots are.

/// A value that stands for a history of entries and has a number that stays.
///
/// `root` says of each place of a history where it belongs: it is the place itself or an earlier one, and it stays as
/// the history grows.
pub trait Standing {
    ghost use Rattle.std.specs.Prelude.{ℕ, List, length, ◌++◌, ◌≡◌, ◌<◌, ◌≤◌};

    /// One step of the history.
    type Entry;

    // The entries that the value stands for, the oldest first.
    ghost history: { Self → List Self.Entry };

    // The root of a place, counted from 0, of a history.
    ghost root: { List Self.Entry → ℕ → ℕ };

    // The number that stays.
    ghost number: { Self → ℕ };

    // A root is the place itself or an earlier one.
    ghost root_before: { (log : List Self.Entry) (place : ℕ) → root log place ≤ place };

    // A root stays as the history grows.
    ghost root_stays: { (log more : List Self.Entry) (place : ℕ) → place < length log → root (log ++ more) place ≡ root log place };
}
