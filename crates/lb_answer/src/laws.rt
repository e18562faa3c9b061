// Laws over the definitions. Each is the contract of a function that does nothing.
ghost use Rattle.std.specs.Prelude.{◌≡◌, ◌↔◌, ℕ, List, IsTrue, false, map};
ghost use Rattle.std.specs.declared.option.Option.{Option};
ghost use Rattle.lb_base.specs.declared.value.Value.{Value};
ghost use Rattle.lb_cat.specs.Catalog.{Table, Policy};
ghost use Rattle.lb_answer.specs.Basis.{Basis};
ghost use Rattle.lb_answer.specs.Candidates.{Marked, other_rows};
ghost use Rattle.lb_answer.specs.Keys.{is_doubled, keys_of};
ghost use Rattle.lb_answer.specs.Laws.{AreKept, AreRows, HasTwo, OthersStay, Fits, WroteExactly, StatementFrame, StatementsAcross, SessionsAlike};

/// The candidates of UPDATE and DELETE are the rows that WHERE keeps of the visible ones, and where one of these tests faults,
/// its first fault; and each row of the table has its mark.
pub fn candidates_are_kept_rows()
    ensures kept { (b : Basis (List Value)) (rows : List (List Value)) → AreKept b rows }
    ensures rows { (b : Basis (List Value)) (rows : List (List Value)) (marks : List Marked) → AreRows b rows marks }
{}

/// Keys are doubled exactly where two of them are one.
pub fn keys_are_doubled()
    ensures { (ks : List Value) → IsTrue (is_doubled ks) ↔ HasTwo ks }
{}

/// UPDATE keeps the number of rows and the places of those that it doesn't take, and these stay as they were.
pub fn others_stay()
    ensures { (p : Option Policy) (b : Basis (List Value)) (t : Table) (places : List ℕ) (marks : List Marked) (news : List (List Value)) → OthersStay p b t places marks news }
{}

/// Where no two rows have one key, no two of those that a DELETE leaves have one.
pub fn deleting_keeps_keys()
    ensures { (place : ℕ) (marks : List Marked) → is_doubled (keys_of place (map (λ m. m.row) marks)) ≡ false → is_doubled (keys_of place (other_rows marks)) ≡ false }
{}

/// A row that a write makes, with the label that it stores, has no null in a NOT NULL or key column and no text that is too wide.
pub fn new_rows_fit<S>()
    ensures { (p : Option Policy) (b : Basis S) (t : Table) (places : List ℕ) (old : Option (List Value)) (source : S) (new : List Value) → Fits p b t places old source new }
{}

/// A statement leaves rows in a table exactly where its reply tells of a write.
pub fn rows_are_left_by_writes()
    ensures { WroteExactly }
{}

/// In one catalogue the answer of a query or a write depends on the rows of the tables that it mentions and that their
/// permissions and masks mention.
pub fn statements_have_a_frame()
    ensures { StatementFrame }
{}

/// Two catalogues that have the same records of what a query or a write mentions, and of what its tables mention, answer it alike,
/// where names and types are refused alike.
pub fn catalogues_answer_statements_alike()
    ensures { StatementsAcross }
{}

/// Two sessions with the same user, groups, roles, SECADM authority and privileges, which hold the same of the policies that a query or
/// a write mentions and that its tables mention, have one answer to it, and leave the same rows.
pub fn sessions_answer_statements_alike()
    ensures { SessionsAlike }
{}
