//! Worked examples: small statements over small tables, whose answers the checker computes from the definitions.
#![tactic(auto)]

mod access;
mod queries;
mod writes;

pub use access::{
    groups_form_before_masks, labels_decide_on_rows, masks_come_last,
    permissions_are_tried_in_order, permissions_know_the_session,
};
pub use queries::{
    edges_are_exact, groups_keep_nulls, names_in_on_belong_to_its_chain, sure_parts_come_first,
    work_goes_in_order,
};
pub use writes::{
    labels_are_stored, new_rows_are_permitted, refusals_stand_beside_accepted,
    values_are_all_or_nothing, writes_go_row_by_row,
};
