// The channel: READ, WRITE, CHECK and I/O done.
//
// It answers for the requests of 'What each call does' of document 01. It knows the tables and making a task ready, and nothing of refusals or of the
// dispatch at the end of a call.
//
// Each function takes the tables and gives them back changed. It ensures that the tables then show the meaning of what it does.
#![tactic(auto)]

pub mod check;
pub mod done;
pub mod queue;
pub mod transfer;
