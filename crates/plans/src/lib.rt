// Plans of halls: the complete plan, the plan that is told link by link, and one of either kind.

#![tactic(auto)]

pub mod any;
pub mod complete;
mod limits;
pub mod table;
