//! The laws over the world, over runs and over scripts, of which the pump's contracts speak.

pub use world_laws::{
    accepted_outlives, acknowledged_is_accepted, acknowledged_outlives, averages_decide,
    coarse_pairs_agree, coarse_scripts_agree, coarse_scripts_agree_in_each_session,
    events_are_certain, every_world_has_answered, every_world_is_lawful, forged_worlds_are_bounded,
    lines_are_steps, low_lines_are_events, low_scripts_are_timed, pairs_agree, runs_have_replies,
    scripts_are_timed_runs, sessions_keep_answers, thinned_histories_agree,
    timed_worlds_are_lawful, timed_worlds_have_answered,
};
