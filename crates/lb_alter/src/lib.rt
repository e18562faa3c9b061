//! What the statements that change the catalogue answer and leave, as definitions, and laws over them.
#![tactic(auto)]

mod laws;

pub use laws::{
    changes_keep_fits, changes_stay_sound, credentials_fit, dependencies_stay, first_is_sound,
    first_tables_fit, fits_follow, some_rules_are_steady, untouched_stays, users_stay,
    worked_changes, worked_controls,
};
