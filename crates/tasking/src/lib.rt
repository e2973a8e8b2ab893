// Tasking: the calls that start a task, stop one, or ask whose turn it is: LINK, SCHEDULE, operator start; FREEMAIN, END, program check; DISPATCH CHECK and the
// timer.
//
// It answers for these calls in 'What each call does' of document 01. It knows all that stands below it, and nothing of refusals.
//
// Each function takes the tables and gives them back changed. It asks for tables that follow the rules and for what the refusals have let pass, and ensures
// that the tables then show the meaning of the call.
#![tactic(auto)]

pub mod starting;
pub mod stopping;
pub mod turns;
