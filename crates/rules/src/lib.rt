// Rules: whether tables keep the table rules of document 01, of ANY tables, every field free.
//
// It answers for 'Table rules, exactly' of document 01. It knows the rules and what the tables are, and nothing of calls.
#![tactic(auto)]

mod links;
mod queues;

ghost use Rattle.std.specs.Prelude.{◌≡◌};
ghost use Rattle.tables.specs.State.{read};
ghost use Rattle.meaning.specs.Rules.{rules_hold};
ghost use Rattle.rules.specs.Orderly.{Orderly, second_pass};

use tables::Tables;

// What goes over several blocks: core, chains of parents, queues.
fn second_pass(t: &Tables) -> bool
    requires { Orderly t.now }
    ensures { result ≡ second_pass (read t.now) }
{
    links::links_right(t) & queues::queues_right(t)
}

// Do the tables keep the table rules? The pointers are walked first: a ring ends the walk. What one pass has shown, the next takes for granted.
pub fn holds(t: Tables) -> bool
    ensures { result ≡ rules_hold t }
{
    let Some(marks) = pointers::walked(t.threads) else {
        return false;
    };
    fields::first_pass(t, marks) && second_pass(&t)
}
