// Laws over what stands. Each is the contract of a function that does nothing but name the laws that it rests on.
ghost use Rattle.lb_standing.specs.Lasting.{AnswersLast, PlansLast};
ghost use Rattle.lb_standing.specs.Laws.{ChangesStayStanding, FirstIsStanding, ReplaysAreStanding, StepsStayStanding, WritesStayStanding};

use lb_journal::Engine;

/// What stands before the first entry of a journal: the first catalogue is sound, and it has no tables.
pub fn first_is_standing()
    ensures { FirstIsStanding }
{
    lb_alter::first_is_sound();
    lb_alter::first_tables_fit();
}

/// After a query or a write that some text spells, on a day of the calendar, what stands is sound and its tables fit, where it was so
/// before: rows are left only by a write that the rules of types let pass, in a table that is there, and they fit it.
pub fn writes_stay_standing()
    ensures { WritesStayStanding }
{
    lb_alter::credentials_fit();
    lb_fits::writes_keep_fits();
    lb_fits::fitting_rows_are_known();
    lb_fits::sound_masks_fit();
    lb_spoken::spoken_statements_have_days();
}

/// After a change of the catalogue that some text spells, what stands is sound and its tables fit, where it was so before: what CREATE
/// PERMISSION and CREATE MASK store has the DATE literals that are written, and DROP TABLE takes the rows of the table away.
pub fn changes_stay_standing()
    ensures { ChangesStayStanding }
{
    lb_journal::stored_rules_are_steady();
    lb_alter::changes_stay_sound();
    lb_alter::changes_keep_fits();
    lb_spoken::spoken_changes_are_as_read();
    lb_spoken::spoken_statements_have_days();
}

/// After every statement that some text spells, on a day of the calendar, what stands is sound and its tables fit, where it was so before.
pub fn steps_stay_standing()
    ensures { StepsStayStanding }
{
    writes_stay_standing();
    changes_stay_standing();
}

/// What a well-made journal leaves is sound, and its tables fit.
pub fn replays_are_standing()
    ensures { ReplaysAreStanding }
{
    first_is_standing();
    steps_stay_standing();
}

/// In a well-made journal, a plan of an engine stays right for its statement while no stamp of what the statement depends on moves.
pub fn plans_last<E: Engine>()
    ensures { PlansLast E.means E.takes }
{
    first_is_standing();
    steps_stay_standing();
    lb_journal::right_plans_last::<E>();
}

/// In a well-made journal, a write is answered as before, and leaves the same rows, while no stamp of what its commit depends on moves.
pub fn answers_last()
    ensures { AnswersLast }
{
    first_is_standing();
    steps_stay_standing();
    lb_journal::written_again();
}
