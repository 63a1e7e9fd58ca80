//! The definitions of the store. It has no product code: what stands here is what a reader has to
//! believe, and what the contracts of the crates above cite. What is proved of the definitions alone is
//! said by functions that do nothing.
#![tactic(auto)]

mod law;

pub use law::{
    a_generated_script_is_spelled, a_granted_oplock_has_its_call_pending,
    a_held_call_has_living_blockers, a_script_is_what_its_bytes_spell, caching_is_coherent,
    each_call_ends_once, each_call_is_made_once, each_try_is_coherent, each_try_keeps_its_frame,
    no_call_is_left_ready, packed_rows_are_printed, released_calls_are_tried_once,
    some_client_goes_on, watches_report_exactly, watches_report_what_is_due,
};
