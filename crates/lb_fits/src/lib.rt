//! The rows that a write leaves fit their table, as definitions and laws.
#![tactic(auto)]

mod laws;

pub use laws::{
    candidate_rows_fit, deletes_keep_fits, fitting_rows_are_known, inserted_rows_fit,
    sound_masks_fit, stored_labels_fit, tests_of_keys_agree, updated_rows_fit, writes_keep_fits,
};
