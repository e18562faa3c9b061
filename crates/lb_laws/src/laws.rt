// Laws over the definitions. Each is the contract of a function that does nothing.
ghost use Rattle.std.specs.Prelude.{◌≡◌, ℕ, List};
ghost use Rattle.lb_cat.specs.declared.entry.Entry.{Entry};
ghost use Rattle.lb_cat.specs.declared.reply.Reply.{Reply};
ghost use Rattle.lb_model.specs.Step.{State};
ghost use Rattle.lb_model.specs.Replay.{Replay, Rep};
ghost use Rattle.lb_model.specs.Sections.{Section, SectionResult, Journaled, out};
ghost use Rattle.lb_laws.specs.Outside.{SameOutside};
ghost use Rattle.lb_laws.specs.Whole.{OneReply, OneState};

/// A journal leaves at most one state.
pub fn journal_has_one_replay()
    ensures { (J : List Entry) (T U : State) → Replay J T → Replay J U → T ≡ U }
{}

/// A place of a journal has at most one reply.
pub fn place_has_one_reply()
    ensures { (J : List Entry) (k : ℕ) (r q : Reply) → Rep J k r → Rep J k q → r ≡ q }
{}

/// The sections of a script, the limit of the journal, the days that the statements took and the lines that show
/// NOMEMORY determine the journal, the openings of the sessions, every answer and the text of the run.
pub fn script_has_one_journal()
    ensures journal { (limit : ℕ) (sections : List Section) (os ps : List SectionResult) (h : Journaled limit sections os) (i : Journaled limit sections ps) → SameOutside os ps → h.journal ≡ i.journal }
    ensures results { (limit : ℕ) (sections : List Section) (os ps : List SectionResult) → Journaled limit sections os → Journaled limit sections ps → SameOutside os ps → os ≡ ps }
    ensures output { (limit : ℕ) (sections : List Section) (os ps : List SectionResult) → Journaled limit sections os → Journaled limit sections ps → SameOutside os ps → out limit sections os ≡ out limit sections ps }
{}

/// A journal of the whole language leaves at most one state, and a place of it has at most one reply.
pub fn whole_journal_has_one_replay()
    ensures state { OneState }
    ensures reply { OneReply }
{
    lb_journal::a_journal_has_one_replay();
}
