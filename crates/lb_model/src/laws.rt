// Laws over the definitions. Each is the contract of a function that does nothing.
ghost use Rattle.std.specs.Prelude.{◌≡◌, ◌≤◌, ◌<◌, ◌++◌, ℕ, List, Some, length, slice_get};
ghost use Rattle.lb_cat.specs.declared.entry.Entry.{Entry};
ghost use Rattle.lb_cat.specs.declared.entry.Entry.TheVariants as entries;
ghost use Rattle.lb_cat.specs.declared.entry.Said.{Said};
ghost use Rattle.lb_cat.specs.declared.reply.Reply.{Reply};
ghost use Rattle.lb_model.specs.Journal.{IsMade};
ghost use Rattle.lb_model.specs.Step.{State};
ghost use Rattle.lb_model.specs.Replay.{Replay, Rep};
ghost use Rattle.lb_model.specs.Roots.{root};

/// A well-made journal leaves a state.
pub fn journal_has_a_replay()
    ensures { (J : List Entry) → IsMade J → (T : State) × Replay J T }
{}

/// Each statement of a well-made journal has a reply.
pub fn statement_has_a_reply()
    ensures { (J : List Entry) (k : ℕ) (d : Said) → IsMade J → slice_get J k ≡ Some (entries.Said d) → (r : Reply) × Rep J k r }
{}

/// The root of a place is that place or an earlier one, and stays as the journal grows.
pub fn root_stays()
    ensures below { (J : List Entry) (k : ℕ) → root J k ≤ k }
    ensures stays { (J K : List Entry) (k : ℕ) → k < length J → root (J ++ K) k ≡ root J k }
{}
