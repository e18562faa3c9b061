// Laws over the grammar. Each is the contract of a function that does nothing.
ghost use Rattle.lb_spoken.specs.Laws.{ChangesAreAsRead, StatementsHaveDays, ChangesHaveDays, StatementsReadDays};

/// A change of the catalogue that some text spells is as a text gives it: CREATE TABLE has an element, and a new policy has a
/// component and a name in upper case.
pub fn spoken_changes_are_as_read()
    ensures { ChangesAreAsRead }
{}

/// Each DATE literal of a statement that some text spells is a day of the calendar, from 0001-01-01 to 9999-12-31: in the values that
/// it writes, in queries and their ORDER BY, in the WHERE of UPDATE and DELETE, in the condition of CREATE PERMISSION and in the CASE
/// expression of CREATE MASK.
pub fn spoken_statements_have_days()
    ensures statements { StatementsHaveDays }
    ensures changes { ChangesHaveDays }
    ensures reads { StatementsReadDays }
{}
