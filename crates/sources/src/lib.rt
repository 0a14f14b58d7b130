// Arrow sources: ports from a list, ports from a seed, a source down to a depth, and one source of either kind.

#![tactic(auto)]

pub mod any;
pub mod cap;
pub mod depth;
pub mod filed;
pub mod listing;
pub mod seeded;
