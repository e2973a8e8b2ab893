// The meaning of the executive: what document 01 says that calls and interrupts do, and the table rules, as definitions that can be computed.
//
// It has the types of what a call gives, and no code. Whoever wants to know what must be believed reads specs/ beside document 01.
#![tactic(auto)]

use answers::Refusal;
use tables::Tables;

// What an accepted call gives: the tables, before the dispatch, and the result.
#[derive(Clone, Copy)]
pub struct Given {
    pub tables: Tables,
    pub result: u8,
}

// What a step gives: the tables as it leaves them, and the answer. The third number of the answer is the task that runs in them. It is refused by a `Refusal`,
// or, where a caller keeps numbers, by any number.
#[derive(Clone, Copy)]
pub struct Stepped<N = Refusal> {
    pub tables: Tables,
    pub outcome: Result<u8, N>,
}
