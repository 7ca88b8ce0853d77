// What a statement of the table has to do in one instant, started or resumed, and which statements hold an active pause.
#![tactic(auto)]

pub mod active;
pub mod form;
