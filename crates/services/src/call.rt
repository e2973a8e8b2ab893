// One call, whole, on tables that follow the rules.
ghost use Rattle.std.specs.Prelude.{◌≡◌};
ghost use Rattle.answers.specs.Answer.{number};
ghost use Rattle.meaning.specs.Step.{stepped, step_of};
ghost use Rattle.lawful.specs.Tables.{LawfulTables};

use crate::effects;
use answers::Refusal;
use calls::Call;
use meaning::Stepped;
use scheduler::dispatch;
use tables::Tables;

// The call is read from its bytes; it is refused by the first row that applies, and changes nothing; or it is done, and if no task runs then, the first of
// the best level that is ready is dispatched.
pub fn call(t: Tables, bytes: &[u8]) -> Stepped
    requires { LawfulTables t }
    ensures { stepped number result ≡ step_of t bytes.now }
{
    let Ok(c) = Call::try_from(bytes) else {
        return Stepped {
            tables: t,
            outcome: Err(Refusal::CallLength),
        };
    };
    if let Err(refusal) = refusals::check(t, c) {
        return Stepped {
            tables: t,
            outcome: Err(refusal),
        };
    }
    let given = effects::effect(t, c);
    let next = dispatch::dispatch(given.tables);
    Stepped {
        tables: next,
        outcome: Ok(given.result),
    }
}
