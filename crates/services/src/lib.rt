// Services: what each service call and interrupt does, by its code, and one whole call on tables that follow the rules.
//
// It answers for 'What each call does' of document 01, and for the order in which a call is answered: read, refused by the first row that applies, or
// done and followed by the dispatch. It knows all that stands below it, and not how the table rules are decided.
//
// Each function takes the tables and gives them back changed. It asks for tables that follow the rules and for what the refusals have let pass, and ensures
// that the tables then show the meaning of the call.
#![tactic(auto)]

pub mod call;
pub mod effects;
pub mod events;
