// Fault sets: the sets of gauges that a history may take to be wrong, listed in one order.
#![tactic(auto)]

mod listing;
mod set;

pub use listing::{MAX_GAUGES, MAX_WRONG, check_limits, fault_sets, how_many, in_all, set_at};
pub use set::FaultSet;
