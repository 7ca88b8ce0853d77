// The rules of an instant over machine words: an event, what must and can give, and the pauses that are kept.
#![tactic(auto)]

pub mod events;
pub mod given;
pub mod pauses;
