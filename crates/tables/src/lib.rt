// Relations between events as tables of bit rows: row b has the events related to b. And rows of events by object and by kind.
#![tactic(auto)]

pub mod arbitration;
pub mod groups;
mod order;
pub mod real_time;
mod returned;
pub mod sweep;
mod swept;
