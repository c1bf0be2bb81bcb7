// What a call answers: its code, then the other numbers of its result, zero where it has fewer.
ghost use Rattle.std.specs.Prelude.{◌≡◌, ◌∷◌, [], ◌++◌, Some};
ghost use Rattle.model.specs.Refusals.{code_of};
ghost use Rattle.model.specs.Calls.{numbers_beside, rect_numbers, nought};

use caption::answer::{area, code, value};
use model::refusal::Refusal;
use model::{Rect, Value};
use std::fmt;

#[derive(Clone, Copy)]
pub struct Answer {
    pub code: u32,
    pub numbers: [u32; 4],
}

impl From<u32> for Answer {
    ghost from_gives = { λ code a. (a.code ≡ code) × (a.numbers ≡ nought 4) };

    fn from(code: u32) -> Answer {
        Answer {
            code,
            numbers: [0; 4],
        }
    }
}

impl From<Result<(), Refusal>> for Answer {
    ghost from_gives = { λ done a. (a.code ≡ code_of done) × (a.numbers ≡ nought 4) };

    fn from(done: Result<(), Refusal>) -> Answer {
        code(done).into()
    }
}

impl From<Result<u8, Refusal>> for Answer {
    ghost from_gives = { λ answer a. (a.code ≡ code_of answer) × (a.numbers ≡ numbers_beside 1 (λ v. v ∷ []) answer ++ nought 3) };

    fn from(answer: Result<u8, Refusal>) -> Answer {
        let Value { code, value } = value(answer);
        Answer {
            code,
            numbers: [value, 0, 0, 0],
        }
    }
}

impl From<Result<Rect, Refusal>> for Answer {
    ghost from_gives = { λ answer a. (a.code ≡ code_of answer) × (a.numbers ≡ numbers_beside 4 rect_numbers answer) };

    fn from(answer: Result<Rect, Refusal>) -> Answer {
        let q = area(answer);
        Answer {
            code: q.code,
            numbers: [q.left, q.top, q.right, q.bottom],
        }
    }
}

// The five numbers, with single spaces.
impl fmt::Display for Answer {
    ghost use Rattle.stored_calls.specs.Answers.{text_of};

    ghost output = { λ a. Some (text_of a) };

    fn fmt<W: fmt::Write>(&self, f: &mut fmt::Formatter<W>) -> fmt::Result {
        let code = self.code;
        let [a, b, c, d] = self.numbers;
        write!(f, "{code} {a} {b} {c} {d}")
    }
}
