// Queries, computed.
ghost use Rattle.lb_worked.specs.Sure.{SurePartFirst, StopsAtUnknown, UnderNot, NotSure, InCase};
ghost use Rattle.lb_worked.specs.Orders.{OutputsLast, LastFirst, DistinctFirst, KeysBeforeCut, InStops, BetweenStops, CoalesceStops, ScalarEvaluatesAll, ScalarHasOneRow, ExistsHasNoOutputs, LeftJoinNulls};
ghost use Rattle.lb_worked.specs.Edges.{AtLimit, BeyondLimit, BeforeFirst, BeyondLast, FarBeyond};
ghost use Rattle.lb_worked.specs.Chained.{OtherChain, LaterTable};
ghost use Rattle.lb_worked.specs.Grouped.{FirstRowsOrder, OneGroup, NoGroup, HavingTrue, HavingUnknown, NullsNotCounted, SumOverflows, SumInRowOrder, MaxFits};

/// WHERE tests the parts without arithmetic and subqueries first, and stops at the first that isn't true.
pub fn sure_parts_come_first()
    ensures sure_part_first { SurePartFirst }
    ensures stops_at_unknown { StopsAtUnknown }
    ensures under_not { UnderNot }
    ensures not_sure { NotSure }
    ensures in_case { InCase }
{}

/// DISTINCT, sort keys, the cut and the outputs come one after the other, and what isn't asked for isn't evaluated.
pub fn work_goes_in_order()
    ensures outputs_last { OutputsLast }
    ensures last_first { LastFirst }
    ensures distinct_first { DistinctFirst }
    ensures keys_before_cut { KeysBeforeCut }
    ensures in_stops { InStops }
    ensures between_stops { BetweenStops }
    ensures coalesce_stops { CoalesceStops }
    ensures scalar_evaluates_all { ScalarEvaluatesAll }
    ensures scalar_has_one_row { ScalarHasOneRow }
    ensures exists_has_no_outputs { ExistsHasNoOutputs }
    ensures left_join_nulls { LeftJoinNulls }
{}

/// The limit of kept rows is exact, and SUBSTR counts places over unbounded integers.
pub fn edges_are_exact()
    ensures at_limit { AtLimit }
    ensures beyond_limit { BeyondLimit }
    ensures before_first { BeforeFirst }
    ensures beyond_last { BeyondLast }
    ensures far_beyond { FarBeyond }
{}

/// A bare column in ON belongs to the tables of its chain, for the test of protected columns too.
pub fn names_in_on_belong_to_its_chain()
    ensures other_chain { OtherChain }
    ensures later_table { LaterTable }
{}

/// Groups stand in the order of their first rows, nulls make one group, and aggregates pass nulls over.
pub fn groups_keep_nulls()
    ensures first_rows_order { FirstRowsOrder }
    ensures one_group { OneGroup }
    ensures no_group { NoGroup }
    ensures having_true { HavingTrue }
    ensures having_unknown { HavingUnknown }
    ensures nulls_not_counted { NullsNotCounted }
    ensures sum_overflows { SumOverflows }
    ensures sum_in_row_order { SumInRowOrder }
    ensures max_fits { MaxFits }
{}
