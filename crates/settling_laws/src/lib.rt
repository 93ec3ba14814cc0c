//! A controller that is left alone settles: it takes what is pending, puts what is wanted, and then
//! waits.
#![tactic(auto)]

mod laws;

pub use laws::{
    controllers_settle, only_refusals_leave_awaiting, rest_is_settled, runs_settle_worlds,
    steps_end, what_is_left_stays, worlds_have_config_copies, worlds_have_copies,
};
