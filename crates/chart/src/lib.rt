// Best-first charts in fixed memory: opened, stepped, settled, questioned and read.
#![tactic(auto)]

mod bringing;
pub mod call;
mod listing;
mod meeting;
mod opening;
pub mod outcome;
mod places;
pub mod read;
pub mod refusal;
pub mod run;
pub mod setting;
pub mod settled;
mod stepping;
mod table;
mod walk;
pub mod weigh;
pub mod working;
