//! The laws of ranks that post messages and take them, in any order of their steps: what holds of one rank and the stop word, of one
//! box, and of whole states; and that the ranks along a trace of configurations keep the conditions of these laws.
#![tactic(auto)]

mod boxes;
mod interleavings;
mod ranks;
mod streams;
mod traces;

pub use boxes::{
    box_after_post, box_after_take, box_fits_after_post, box_fits_after_take,
    box_gives_the_message, box_has_a_message, box_without_post, box_without_take,
};
pub use interleavings::{
    another_rank_runs, changes_are_bounded, first_state_has_facts, followed_steps_lead,
    followed_steps_leave_boxes, good_end_empties_boxes, interleavings_are_right, some_rank_moves,
    states_have_steps, steps_keep_facts, steps_raise_weight, sweeps_raise_weight,
    waited_ranks_wait,
};
pub use ranks::{
    rank_stays_right, stop_falls, stop_stays_right, told_stays_told, told_when_faulted,
};
pub use streams::{message_steps_are_few, messages_are_taken, takes_have_messages};
pub use traces::{sound_traces_are_lawful, sound_traces_exist, weight_is_bounded};
