// The executive: its public face, for programs in Rattle, C and Rust. It loads an image, answers one call at a time, and keeps the tables where they lie.
//
// It answers for what document 01 promises of a load and of a call, whole: every entry takes any bytes and any tables, asks nothing, and states its
// complete answer and the tables that it leaves. The exported functions are what another language sees; `include/khilzurgee.h` declares them and the
// layout of the structs. A load and a call each have one function by value, which does all of it, and exported ones that only put the tables in their place.
//
// A load takes the rule of its grants: the smallest hole, or, for recordings made before E8 of document 02, the lowest start. All else is one code. The
// exported loads stay two, and their clauses list the three numbers: C calls them by name, and `executive_c` says their clauses again.
#![tactic(auto)]

ghost use Rattle.std.specs.Prelude.{[], ◌∷◌, ◌≡◌};
ghost use Rattle.answers.specs.Answer.{refusal_of, number};
ghost use Rattle.image.specs.Load.{load_of};
ghost use Rattle.sealed.specs.Sealed.{block_check};
ghost use Rattle.pools.specs.Pools.{LowestStart, SmallestHole};
ghost use Rattle.pools.specs.Rule.{rule_number};
ghost use Rattle.meaning.specs.Step.{stepped, tables_of, step_of, line_of, load_line};

use answers::{Numbered, Refusal};
use calls::Answer;
use meaning::Stepped;
use pools::Rule;
use tables::Tables;

// What is had after a load or a call: the tables, and the three numbers of the answer.
#[derive(Clone, Copy)]
pub struct After {
    pub tables: Tables,
    pub answer: Answer,
}

// Loads an image from any bytes: the tables to begin with, in which grants follow the rule, all zero where it is refused; and the answer, its result M.
pub fn load(rule: Rule, image: &[u8]) -> Stepped
    ensures { stepped number result ≡ record { tables = tables_of (rule_number rule) image.now; outcome = (load_of image.now).outcome } }
{
    match image::load(image) {
        Ok(directory) => {
            let modules = directory.modules as u8;
            Stepped {
                tables: tables::loaded(u64::from(rule), directory),
                outcome: Ok(modules),
            }
        }
        Err(refusal) => Stepped {
            tables: tables::all_zero(),
            outcome: Err(refusal),
        },
    }
}

// Answers one call, of any bytes, on any tables: refused by 9 where they break the table rules.
pub fn step(t: Tables, call: &[u8]) -> Stepped
    ensures { stepped number result ≡ step_of t call.now }
{
    if !rules::holds(t) {
        return Stepped {
            tables: t,
            outcome: Err(Refusal::Rules),
        };
    }
    services::call::call(t, call)
}

// The three numbers of what a step or a load gives.
pub fn line<N: Numbered>(given: Stepped<N>) -> Answer
    ensures { result.refusal ∷ result.result ∷ result.running ∷ [] ≡ line_of (stepped N.numbered given) }
{
    calls::numbers(given.outcome, given.tables.running)
}

// A load or a call, whole.
fn whole(next: Stepped) -> After
    ensures { (result.answer.refusal ∷ result.answer.result ∷ result.answer.running ∷ [] ≡ line_of (stepped number next)) × (result.tables ≡ next.tables) }
{
    After {
        tables: next.tables,
        answer: line(next),
    }
}

// Stores the tables of a step or a load where they lie, and gives its three numbers.
fn store(t: &mut Tables, next: Stepped) -> Answer
    ensures { (result.refusal ∷ result.result ∷ result.running ∷ [] ≡ line_of (stepped number next)) × (t.new ≡ next.tables) }
{
    let after = whole(next);
    *t = after.tables;
    after.answer
}

// The image check: the number by which loading would refuse the bytes, 0 for none.
#[unsafe(no_mangle)]
pub extern "C" fn khilzurgee_image_check(bytes: &[u8]) -> u8
    ensures { result ≡ refusal_of (load_of bytes.now).outcome }
{
    image::khilzurgee_image_check(bytes)
}

// The check that a block of 512 bytes has to end with, 1 to 65,521; 0 for any other length.
#[unsafe(no_mangle)]
pub extern "C" fn khilzurgee_block_check(block: &[u8]) -> u16
    ensures { result ≡ block_check block.now }
{
    image::khilzurgee_block_check(block)
}

// Loads an image into the tables that are lent, whatever they hold: all zero where it is refused. The answer is refusal, M or 0, 0.
#[unsafe(no_mangle)]
pub extern "C" fn khilzurgee_load(t: &mut Tables, image: &[u8]) -> Answer
    ensures { (result.refusal ∷ result.result ∷ result.running ∷ [] ≡ load_line image.now) × (t.new ≡ tables_of SmallestHole image.now) }
{
    store(t, load(Rule::SmallestHole, image))
}

// The same for the old program: grants go by the lowest start, as in recordings made before E8. Calls go on with `khilzurgee_advance`.
#[unsafe(no_mangle)]
pub extern "C" fn khilzurgee_load_lowest(t: &mut Tables, image: &[u8]) -> Answer
    ensures { (result.refusal ∷ result.result ∷ result.running ∷ [] ≡ load_line image.now) × (t.new ≡ tables_of LowestStart image.now) }
{
    store(t, load(Rule::LowestStart, image))
}

// Answers one call on the tables that are lent, and leaves there the tables of after the call.
#[unsafe(no_mangle)]
pub extern "C" fn khilzurgee_advance(t: &mut Tables, call: &[u8]) -> Answer
    ensures { (result.refusal ∷ result.result ∷ result.running ∷ [] ≡ line_of (step_of t.old call.now))
        × (t.new ≡ (step_of t.old call.now).tables) }
{
    let next = step(*t, call);
    store(t, next)
}
