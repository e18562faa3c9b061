// Laws over the definitions. Each is the contract of a function that does nothing.
ghost use Rattle.std.specs.Prelude.{◌≡◌, Bool, List};
ghost use Rattle.std.specs.Cmp.{IsStrictWeakOrder};
ghost use Rattle.std.specs.List.Sorted.{IsSortedBy, IsStableBy};
ghost use Rattle.lb_mean.specs.Frame.{ExprFrame, CondFrame, QueryFrame};
ghost use Rattle.lb_mean.specs.Laws.{RowsFrame, AnswerFrame, RefusalFrame, AcrossFrame, TwoWorlds, SessionsFrame};
ghost use Rattle.lb_mean.specs.Ordered.{sorted};

/// The meaning of an expression, a condition or a query depends on the session, the day, and what is seen of the tables and
/// policies that it mentions, and on nothing else.
pub fn meaning_has_a_frame()
    ensures expr { ExprFrame }
    ensures cond { CondFrame }
    ensures query { QueryFrame }
{}

/// What a query gives depends on the records and the rows of the tables and policies that it mentions, on the policies of these
/// tables, and on what their permissions and masks mention. In one catalogue its answer depends on the rows of those tables alone.
pub fn queries_have_a_frame()
    ensures rows { RowsFrame }
    ensures answer { AnswerFrame }
{}

/// Two catalogues that have the same records of what a query mentions, and of what its tables mention, refuse it alike by privileges,
/// protected columns and masks. Over the same rows they answer it alike, where names and types are refused alike.
pub fn catalogues_answer_queries_alike()
    ensures refusals { RefusalFrame }
    ensures answer { AcrossFrame }
{}

/// Two sessions with the same user, groups, roles, SECADM authority and privileges, which hold the same of the policies that a query
/// mentions and that its tables mention, have one answer to it.
pub fn sessions_answer_queries_alike()
    ensures { SessionsFrame }
{}

/// A query has the same answer in two worlds of which the session sees the same, and whose permissions and masks read the same.
pub fn two_worlds_answer_alike()
    ensures { TwoWorlds }
{}

/// A list in order in which ties stand as they stood is what the definition of ORDER BY gives, so that std's stable sort computes it.
pub fn stable_sort_is_sorted<T>()
    ensures { (less : T → T → Bool) → IsStrictWeakOrder less → (xs ys : List T) → IsSortedBy less ys → IsStableBy less xs ys → ys ≡ sorted less xs }
{}
