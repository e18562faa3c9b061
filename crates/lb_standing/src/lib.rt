//! What stands after a well-made journal, as definitions and laws: a sound catalogue whose tables fit.
#![tactic(auto)]

mod laws;

pub use laws::{
    answers_last, changes_stay_standing, first_is_standing, plans_last, replays_are_standing,
    steps_stay_standing, writes_stay_standing,
};
