// Waiting: conditions, waiting for one, and waking the tasks whose condition has come.
//
// It answers for 'Conditions and getting ready' of document 01, as far as it is about events and the clock. It knows the tables and the scheduler, and
// nothing of calls but the condition that one asks for.
//
// Each function takes the tables and gives them back changed. It asks for no more than makes it safe, and ensures that the tables then show the
// meaning of what it does.
#![tactic(auto)]

pub mod conditions;
pub mod wait;
pub mod wake;
