// What C is answered: a code, 0 for done, and the numbers beside it, which are 0 with a refusal.
ghost use Rattle.std.specs.Prelude.{◌≡◌, ◌∷◌, []};
ghost use Rattle.model.specs.Refusals.{number_of, code_of};
ghost use Rattle.model.specs.Calls.{numbers_beside, value_numbers, rect_numbers, area_numbers, line_sent_numbers, sent_numbers};

use model::refusal::Refusal;
use model::{Area, Rect, Sent, SentLine, Value};

// Document 01's number of a refusal.
pub fn number_of(refusal: Refusal) -> u32
    ensures { result ≡ number_of refusal }
{
    refusal as u32
}

pub fn code(answer: Result<(), Refusal>) -> u32
    ensures { result ≡ code_of answer }
{
    match answer {
        Ok(()) => 0,
        Err(refusal) => number_of(refusal),
    }
}

pub fn value(answer: Result<u8, Refusal>) -> Value
    ensures code { result.code ≡ code_of answer }
    ensures numbers { value_numbers result ≡ numbers_beside 1 (λ v. v ∷ []) answer }
{
    match answer {
        Ok(value) => Value {
            code: 0,
            value: value as u32,
        },
        Err(refusal) => Value {
            code: number_of(refusal),
            value: 0,
        },
    }
}

pub fn area(answer: Result<Rect, Refusal>) -> Area
    ensures code { result.code ≡ code_of answer }
    ensures numbers { area_numbers result ≡ numbers_beside 4 rect_numbers answer }
{
    match answer {
        Ok(q) => Area {
            code: 0,
            left: q.left as u32,
            top: q.top as u32,
            right: q.right as u32,
            bottom: q.bottom as u32,
        },
        Err(refusal) => Area {
            code: number_of(refusal),
            left: 0,
            top: 0,
            right: 0,
            bottom: 0,
        },
    }
}

// No line: idle, or a refusal.
fn no_line(code: u32) -> Sent
    ensures code { result.code ≡ code }
    ensures numbers { sent_numbers result ≡ 0 ∷ 0 ∷ 0 ∷ 0 ∷ [] }
{
    Sent {
        code,
        sent: 0,
        line: 0,
        left: 0,
        right: 0,
    }
}

pub fn sent(answer: Result<Option<SentLine>, Refusal>) -> Sent
    ensures code { result.code ≡ code_of answer }
    ensures numbers { sent_numbers result ≡ numbers_beside 4 line_sent_numbers answer }
{
    match answer {
        Ok(Some(s)) => Sent {
            code: 0,
            sent: 1,
            line: s.line as u32,
            left: s.left as u32,
            right: s.right as u32,
        },
        Ok(None) => no_line(0),
        Err(refusal) => no_line(number_of(refusal)),
    }
}
