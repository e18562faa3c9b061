// Row permissions, column masks and labels, computed.
ghost use Rattle.lb_worked.specs.Permitted.{TrueBeforeFault, FaultBeforeTrue, DisabledSavesNone, FalseIsHidden, NoPermission, NothingToCount, SeenBeforeJoined};
ghost use Rattle.lb_worked.specs.Masked.{AggregatesMasked, SortsUnmasked, FiltersUnmasked, DistinctRefused, DistinctAllowed, PerItem, FirstMask, NullRow};
ghost use Rattle.lb_worked.specs.Labelled.{WithLabel, WithoutLabel, WithExemption, WholeText, ReadableText, SecuredColumn, UnsecuredColumn};
ghost use Rattle.lb_worked.specs.MaskedGroups.{DistinctUnmasked, DistinctShown, GroupsUnmasked, CountsMasked, HavingUnmasked};
ghost use Rattle.lb_worked.specs.Sessions.{SeesOwn, OwnerIsNotFree, OneRole, NoRole, RoleIsNoGroup};

/// The enabled permissions of a row are tried in the order of creation, up to the first that is true or faults.
pub fn permissions_are_tried_in_order()
    ensures true_before_fault { TrueBeforeFault }
    ensures fault_before_true { FaultBeforeTrue }
    ensures disabled_saves_none { DisabledSavesNone }
    ensures false_is_hidden { FalseIsHidden }
    ensures no_permission { NoPermission }
    ensures nothing_to_count { NothingToCount }
    ensures seen_before_joined { SeenBeforeJoined }
{}

/// Masks stand in the outputs alone, and with GROUP BY and DISTINCT they may choose by the grouped columns alone.
pub fn masks_come_last()
    ensures aggregates_masked { AggregatesMasked }
    ensures sorts_unmasked { SortsUnmasked }
    ensures filters_unmasked { FiltersUnmasked }
    ensures distinct_refused { DistinctRefused }
    ensures distinct_allowed { DistinctAllowed }
    ensures per_item { PerItem }
    ensures first_mask { FirstMask }
    ensures null_row { NullRow }
{}

/// Labels are tested row by row, component by component.
pub fn labels_decide_on_rows()
    ensures with_label { WithLabel }
    ensures without_label { WithoutLabel }
    ensures with_exemption { WithExemption }
    ensures whole_text { WholeText }
    ensures readable_text { ReadableText }
    ensures secured_column { SecuredColumn }
    ensures unsecured_column { UnsecuredColumn }
{}

/// DISTINCT, GROUP BY and HAVING work on unmasked values, and outputs and their aggregates on masked ones.
pub fn groups_form_before_masks()
    ensures distinct_unmasked { DistinctUnmasked }
    ensures distinct_shown { DistinctShown }
    ensures groups_unmasked { GroupsUnmasked }
    ensures counts_masked { CountsMasked }
    ensures having_unmasked { HavingUnmasked }
{}

/// Permissions see the session's user, roles and groups.
pub fn permissions_know_the_session()
    ensures sees_own { SeesOwn }
    ensures owner_is_not_free { OwnerIsNotFree }
    ensures one_role { OneRole }
    ensures no_role { NoRole }
    ensures role_is_no_group { RoleIsNoGroup }
{}
