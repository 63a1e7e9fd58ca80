//! What is proved of histories and their texts: in which order a script's calls are made, that they all are, that a text tells
//! its history, how a wait ends, what stands before a call, how long a pending call stays, whose calls release it, that what is
//! called off ends, how long a call stays pending that was granted an oplock, for what causes it ends, what it is told of a
//! break, for what causes oplocks change, with which status a call ends by what it finds, by which checks calls end, that opens
//! and locks leave what was asked for and opens tell what they did, when handles go and that they differ, what a try changes of
//! files, links and streams, which of these changes are noted, that nothing marked is left over and the tree stays sound and
//! well formed, for what causes a call is pending, that what is pending is as it was made and as its try left it, that nothing
//! is missed that it waits for, and to which Notify a watch reports. It has no product code: the laws are said by functions
//! that do nothing.
#![tactic(auto)]

mod law;
mod order;

pub use law::{
    called_off_calls_end, calls_come_after_waits, calls_end_as_their_checks_say,
    calls_end_as_they_find, calls_made_side_by_side_differ, calls_pend_as_they_were_tried,
    calls_pend_for_a_cause, granted_calls_end_for_a_cause, granted_calls_pend_while_unbroken,
    handles_go_when_closed, holders_are_told_what_breaks_leave, no_awaited_end_or_change_is_missed,
    no_scheduled_call_is_made_waiting, nothing_is_left_over, only_holders_release_held_calls,
    opens_and_locks_leave_what_was_asked, opens_end_as_their_checks_say, opens_tell_what_they_did,
    oplocks_change_for_a_cause, pending_calls_are_as_made, pending_calls_stay,
    renames_and_links_end_as_their_steps_say, scripts_are_read, starved_calls_end_without_memory,
    text_without_no_memory_is_plain, the_earliest_notify_is_reported, the_tree_changes_as_asked,
    the_tree_stays_sound, the_tree_stays_well_formed, tries_end_none_starved_or_stalled,
    two_handles_differ, two_histories_with_one_text_are_one,
    two_whole_histories_with_one_text_are_one, waits_end_in_few_ways, what_changes_is_noted,
};
pub use order::{
    calls_are_made_in_order, each_schedule_goes_on_to_its_end,
    some_call_is_next_until_all_are_made, the_least_cursor_is_next,
};
