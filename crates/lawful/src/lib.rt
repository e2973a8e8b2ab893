// Laws: every accepted call, followed by the dispatch, keeps the shape of the tables and the rules of rest. It has no code.
//
// specs/ has the rules as records, which the contracts of other crates cite; proofs/ has the laws, over the meaning alone.
#![tactic(auto)]
