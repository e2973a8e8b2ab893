// Ending: finishing, ending, and the abort.
//
// It answers for what END and Program check do to a task, in 'What each call does' of document 01. It knows the tables and the scheduler, and nothing of
// calls.
//
// Each function takes the tables and gives them back changed, or has them lent and changes them, and ensures that they then show the meaning of what it does.
// What it asks for is a record of specs/: the rules that hold while the task is in hand.
#![tactic(auto)]

pub mod abort;
pub mod finish;
