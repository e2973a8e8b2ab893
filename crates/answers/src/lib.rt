// The answer to a load, a write or a call: refused by a number, or accepted with a result.
//
// It has the refusals, each with its number, which specs/ has as documents 01 and 02 have it, and the trait of all that has such a number. It knows nothing of
// images, calls or tables.
#![tactic(auto)]

ghost use Rattle.std.specs.Prelude.{◌≡◌, ℕ};
ghost use Rattle.answers.specs.Answer.{number};

// Why an image, a directory or a call is refused. Another refusal is one more case here, with its number below and in specs/.
#[derive(Clone, Copy, Debug, PartialEq, Eq)]
pub enum Refusal {
    // An image, when it is loaded; and a buffer or a directory, when it is written.
    Length,
    BlockCheck,
    Form,
    Modules,
    Every,
    UsedEntry,
    NotZero,
    // A call, whatever it asks for.
    Rules,
    CallLength,
    NoCode,
    NoTask,
    // A call, by what it names, what it carries, its condition, and what the tables still have.
    Pending,
    NoModule,
    NoEvent,
    NoDevice,
    Amount,
    NotHeld,
    Kind,
    Count,
    PastEnd,
    NoTaskBlock,
    NoRequestBlock,
    ChannelEmpty,
    ClockEnd,
}

impl From<Refusal> for u8 {
    ghost from_gives = { λ refusal result. result ≡ number refusal };

    fn from(refusal: Refusal) -> u8 {
        match refusal {
            Refusal::Length => 1,
            Refusal::BlockCheck => 2,
            Refusal::Form => 3,
            Refusal::Modules => 4,
            Refusal::Every => 5,
            Refusal::UsedEntry => 6,
            Refusal::NotZero => 7,
            Refusal::Rules => 9,
            Refusal::CallLength => 10,
            Refusal::NoTask => 11,
            Refusal::NoModule => 12,
            Refusal::Kind => 13,
            Refusal::Count => 14,
            Refusal::PastEnd => 15,
            Refusal::NoTaskBlock => 16,
            Refusal::NoRequestBlock => 17,
            Refusal::NotHeld => 18,
            Refusal::NoEvent => 19,
            Refusal::ChannelEmpty => 20,
            Refusal::ClockEnd => 21,
            Refusal::NoDevice => 22,
            Refusal::Amount => 23,
            Refusal::NoCode => 24,
            Refusal::Pending => 25,
        }
    }
}

// What an answer can be refused by: a `Refusal`, or, where a caller keeps numbers, any number.
pub trait Numbered: Copy {
    ghost numbered: { Self → ℕ };

    fn numbered(self) -> u8
        ensures { result ≡ numbered self };
}

impl Numbered for Refusal {
    ghost numbered = { λ refusal. number refusal };

    fn numbered(self) -> u8 {
        u8::from(self)
    }
}

impl Numbered for u8 {
    ghost numbered = { λ refusal. refusal };

    fn numbered(self) -> u8 {
        self
    }
}
