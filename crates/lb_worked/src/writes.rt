// Writes, computed.
ghost use Rattle.lb_worked.specs.Written.{DoubledKey, KeysAfterRows, KeysOfNewRows, KeepsPlaces, LeavesOthers, GoLast, RowByRow, NoPermission, MaskedSource, OwnValues};
ghost use Rattle.lb_worked.specs.Stored.{TakesOwnLabel, KeepsLabel, NullIsNotGiven, ReadableNotWritable, FirstComponent, Overridden, GivenWithoutLabel, NoOwnLabel, HiddenKey, SecuredColumn};
ghost use Rattle.lb_worked.specs.Given.{InOrder, SecondFaults, NullBeforeFault, FaultBeforeNull, NullBeforeKeys, DoubledInValues, NotCut, SwapsColumns, SwapsBackwards};
ghost use Rattle.lb_worked.specs.Refused.{MaySelect, MayNotSelect, MayNotUpdate, MayDelete, OwnerMay, SetMasked, SetOwn, SetTarget};
ghost use Rattle.lb_worked.specs.Denied.{RowAllowed, RowDenied, RowMayNotLeave, RowUnseenStays};

/// Each row goes through its checks in order before the next one, and keys are compared after all rows.
pub fn writes_go_row_by_row()
    ensures doubled_key { DoubledKey }
    ensures keys_after_rows { KeysAfterRows }
    ensures keys_of_new_rows { KeysOfNewRows }
    ensures keeps_places { KeepsPlaces }
    ensures leaves_others { LeavesOthers }
    ensures go_last { GoLast }
    ensures row_by_row { RowByRow }
    ensures no_permission { NoPermission }
    ensures masked_source { MaskedSource }
    ensures own_values { OwnValues }
{}

/// Which label a new row gets.
pub fn labels_are_stored()
    ensures takes_own_label { TakesOwnLabel }
    ensures keeps_label { KeepsLabel }
    ensures null_is_not_given { NullIsNotGiven }
    ensures readable_not_writable { ReadableNotWritable }
    ensures first_component { FirstComponent }
    ensures overridden { Overridden }
    ensures given_without_label { GivenWithoutLabel }
    ensures no_own_label { NoOwnLabel }
    ensures hidden_key { HiddenKey }
    ensures secured_column { SecuredColumn }
{}

/// An INSERT of several rows writes all of them or none, and the values of SET see the old row.
pub fn values_are_all_or_nothing()
    ensures in_order { InOrder }
    ensures second_faults { SecondFaults }
    ensures null_before_fault { NullBeforeFault }
    ensures fault_before_null { FaultBeforeNull }
    ensures null_before_keys { NullBeforeKeys }
    ensures doubled_in_values { DoubledInValues }
    ensures not_cut { NotCut }
    ensures swaps_columns { SwapsColumns }
    ensures swaps_backwards { SwapsBackwards }
{}

/// What is refused for lack of a privilege or by a mask, and what beside it is accepted.
pub fn refusals_stand_beside_accepted()
    ensures may_select { MaySelect }
    ensures may_not_select { MayNotSelect }
    ensures may_not_update { MayNotUpdate }
    ensures may_delete { MayDelete }
    ensures owner_may { OwnerMay }
    ensures set_masked { SetMasked }
    ensures set_own { SetOwn }
    ensures set_target { SetTarget }
{}

/// A new row that no permission allows refuses the whole statement, and rows that aren't seen stay as they are.
pub fn new_rows_are_permitted()
    ensures row_allowed { RowAllowed }
    ensures row_denied { RowDenied }
    ensures row_may_not_leave { RowMayNotLeave }
    ensures row_unseen_stays { RowUnseenStays }
{}
