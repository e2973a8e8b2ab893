// Calls: the 16 bytes of a call, the fixed table over the codes, and the three numbers of an answer.
//
// It answers for the first paragraphs of 'Calls' of document 01. It knows bytes and numbers, and nothing of tables.
#![tactic(auto)]

pub mod codes;

ghost use Rattle.std.specs.Prelude.{[], ◌∷◌, ◌≡◌, Ok};
ghost use Rattle.answers.specs.Answer.{answered};
ghost use Rattle.calls.specs.Calls.{arrival, numbers};

use answers::{Numbered, Refusal};

// A call: which it is, and its fields, used or not.
#[derive(Clone, Copy, Debug, PartialEq, Eq, Default)]
pub struct Call {
    pub code: u8,
    pub kind: u8,
    pub number: u8,
    pub value: u8,
    pub amount: u32,
    pub events: u64,
}

// The three numbers of an answer: refusal (0 if accepted), result, running task afterwards (0 if idle).
#[repr(C)]
#[derive(Clone, Copy, Debug, PartialEq, Eq)]
pub struct Answer {
    pub refusal: u8,
    pub result: u8,
    pub running: u8,
}

// Reads a call from any bytes.
impl TryFrom<&[u8]> for Call {
    type Error = Refusal;

    ghost try_from_gives = { λ bytes result. result ≡ arrival bytes.now };

    fn try_from(bytes: &[u8]) -> Result<Call, Refusal> {
        if bytes.len() != 16 {
            return Err(Refusal::CallLength);
        }
        Ok(Call {
            code: bytes[0],
            kind: bytes[1],
            number: bytes[2],
            value: bytes[3],
            amount: words::number(bytes, 4, 4) as u32,
            events: words::number(bytes, 8, 8),
        })
    }
}

// The 16 bytes of a call: reading them gives the call again.
impl From<Call> for [u8; 16] {
    ghost from_gives = { λ call bytes. arrival bytes ≡ Ok call };

    fn from(call: Call) -> [u8; 16] {
        let [a0, a1, a2, a3] = call.amount.to_le_bytes();
        let [e0, e1, e2, e3, e4, e5, e6, e7] = call.events.to_le_bytes();
        [
            call.code,
            call.kind,
            call.number,
            call.value,
            a0,
            a1,
            a2,
            a3,
            e0,
            e1,
            e2,
            e3,
            e4,
            e5,
            e6,
            e7,
        ]
    }
}

// The numbers of an answer while `running` is the running task; with refusal 9 no task is named. A caller that keeps numbers can give any.
pub fn numbers<N: Numbered>(outcome: Result<u8, N>, running: u8) -> Answer
    ensures { result.refusal ∷ result.result ∷ result.running ∷ [] ≡ numbers (answered N.numbered outcome) running }
{
    match outcome {
        Ok(result) => Answer {
            refusal: 0,
            result,
            running,
        },
        Err(refused) => {
            let refusal = refused.numbered();
            let broken = u8::from(Refusal::Rules);
            let named = if refusal == broken { 0 } else { running };
            Answer {
                refusal,
                result: 0,
                running: named,
            }
        }
    }
}
