// Laws over the definitions. Each is the contract of a function that does nothing.
ghost use Rattle.std.specs.Prelude.{◌≡◌, ◌≤◌, ◌<◌, ◌++◌, ℕ, List, Some, length, slice_get};
ghost use Rattle.lb_cat.specs.declared.entry.Entry.{Entry};
ghost use Rattle.lb_cat.specs.declared.entry.Entry.TheVariants as entries;
ghost use Rattle.lb_cat.specs.declared.entry.Said.{Said};
ghost use Rattle.lb_cat.specs.declared.reply.Reply.{Reply};
ghost use Rattle.lb_alter.specs.Steady.{IsSteady};
ghost use Rattle.lb_journal.specs.Journal.{IsMade};
ghost use Rattle.lb_journal.specs.State.{State};
ghost use Rattle.lb_journal.specs.Replay.{Replay, Rep};
ghost use Rattle.lb_journal.specs.Roots.{root};
ghost use Rattle.lb_journal.specs.Touched.{StampsAreLastTouches, HasOneStamp};
ghost use Rattle.lb_journal.specs.Engine.{RightGives};
ghost use Rattle.lb_journal.specs.Lasting.{AnswerStays, RightLasts, WriteDependenciesLast, WritesAgain};
ghost use Rattle.lb_alter.specs.Naming.{stored_rules};
ghost use Rattle.lb_journal.specs.Laws.{AbsentIsZero, HasOneReplay, HasOneReply, SameStampSameRecord, StampsTell};

use crate::engine::Engine;

/// A well-made journal leaves a state.
pub fn a_journal_leaves_a_state()
    ensures { (J : List Entry) → IsMade J → (T : State) × Replay J T }
{}

/// Each statement of a well-made journal has a reply.
pub fn a_statement_has_a_reply()
    ensures { (J : List Entry) (k : ℕ) (d : Said) → IsMade J → slice_get J k ≡ Some (entries.Said d) → (r : Reply) × Rep J k r }
{}

/// A journal leaves at most one state, and has at each place at most one reply, since no text is two statements.
pub fn a_journal_has_one_replay()
    ensures state { HasOneReplay }
    ensures reply { HasOneReply }
{}

/// The root of a place is that place or an earlier one, and stays as the journal grows.
pub fn root_stays()
    ensures below { (J : List Entry) (k : ℕ) → root J k ≤ k }
    ensures stays { (J K : List Entry) (k : ℕ) → k < length J → root (J ++ K) k ≡ root J k }
{}

/// What isn't there has the stamp 0. What is there has a stamp above 0, or is as it was in the first state. And where a key's stamp
/// is what it was, so are its record and its rows.
pub fn stamps_tell()
    ensures absent { AbsentIsZero }
    ensures there { StampsTell }
    ensures same { SameStampSameRecord }
{}

/// A stamp is one more than the last place that touches its key, where the key is there; and 0 where it isn't there or no place
/// touches it. No other number is.
pub fn stamps_are_last_touches()
    ensures last { StampsAreLastTouches }
    ensures one { HasOneStamp }
{}

/// Two sound catalogues with the same records under what a statement depends on answer it alike, for each session, tables and day.
pub fn answers_stay()
    ensures { AnswerStays }
{}

/// What an engine's plan that is right for a statement answers, where session and tables fit; and such a plan stays right while
/// no stamp of what the statement depends on moves.
pub fn right_plans_last<E: Engine>()
    ensures gives { RightGives E.means E.takes }
    ensures lasts { RightLasts E.means E.takes }
{}

/// Where no stamp of what the commit of a write depends on moves, the write depends on the same keys, with the same records and
/// rows, and the session's credentials are the same so far as these keys decide them.
pub fn write_dependencies_last()
    ensures { WriteDependenciesLast }
{}

/// Where no stamp of what the commit of a write depends on moves, the write of the same user with the same groups, on the same day,
/// is answered as before, and leaves the same rows.
pub fn written_again()
    ensures { WritesAgain }
{}

/// The rules for stored conditions: they read no more than what a condition depends on; the qualified form mentions what the
/// condition mentions; what is mentioned is there; other labels of a policy break no condition whose labels stay, and more columns
/// of a table no condition that is qualified; and the qualified form keeps the rules that the condition keeps. These are all that
/// soundness asks of them.
pub fn stored_rules_are_steady()
    ensures { IsSteady stored_rules }
{}
