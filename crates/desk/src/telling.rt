// What the lines tell: the three numbers of an answer, and behind them what is asked for.
ghost use Rattle.desk.specs.Told.{Told, Opens};

use calls::Answer;
use lines::Line;
use tables::Tables;

// What is asked for: nothing more, words (`--explain`), or the readings that a call has changed (`--since`).
#[derive(Clone, Copy, Debug, PartialEq, Eq)]
pub enum Wish {
    Numbers,
    Words,
    Readings,
}

// Each match is over the cases of an enum, which the promises `Opens` and `Told` go by too.

// The line of the load, which changes no reading.
pub fn opening(answer: Answer, wish: Wish) -> Line
    ensures { Opens answer wish result }
{
    let numbers = Line::from(answer);
    match wish {
        Wish::Numbers | Wish::Readings => numbers,
        Wish::Words => explain::load(numbers.text(b"  "), answer),
    }
}

// The line of a call, by the tables before it and after it.
pub fn told(call: &[u8], before: Tables, after: Tables, answer: Answer, wish: Wish) -> Line
    ensures { Told before after answer wish result }
{
    let numbers = Line::from(answer);
    match wish {
        Wish::Numbers => numbers,
        Wish::Words => readings::begun(
            explain::call(numbers.text(b"  "), call, answer),
            before,
            after,
        ),
        Wish::Readings => readings::changed(numbers, before, after),
    }
}
