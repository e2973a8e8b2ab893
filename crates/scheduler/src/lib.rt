// The scheduler: making a task ready, core granted, served and given back, and the dispatcher.
//
// It answers for 'Conditions and getting ready' of document 01, from 'getting ready' on. It knows the tables, and nothing of calls or of what a task
// waits for.
//
// Each function takes the tables and gives them back changed. It asks for no more than makes it safe, and ensures that the tables then show the
// meaning of what it does.
#![tactic(auto)]

pub mod core_units;
pub mod dispatch;
pub mod ready;
pub mod serve;
