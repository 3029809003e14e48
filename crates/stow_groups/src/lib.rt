//! How many groups hold so many things, where a group holds at most some, and how these are shared out.
//!
//! `groups` tells the least number of groups. `share_of_last` tells what the last of several gets: as many as the
//! others, or, where the others are to be full, what they leave, one at least (`IsLast`). By the one and the other in
//! turn all groups are filled, from the last on. How evenly that shares them out stands in no contract.
#![tactic(auto)]

pub mod sharing;
