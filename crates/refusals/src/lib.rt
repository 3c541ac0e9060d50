// Why a call refuses: one variant for each number of the table but 0, done, and 8, which is unassigned (RULES 7.1).
#![tactic(auto)]

ghost use Rattle.std.specs.Prelude.{◌≡◌};
ghost use Rattle.refusals.specs.Number.{code_of, number_of};

#[derive(Clone, Copy, PartialEq, Eq)]
pub enum Refusal {
    // 1: the book was never opened, or is out of order
    OutOfOrder,
    // 2: n, B or the mounting is outside its values
    Settings,
    // 3: a number that is given as a cell is none
    NoCell,
    // 4: the tick is before the book's time
    Late,
    // 5: the slide of the link's tick is full
    Full,
    // 6: a lent buffer is too short
    Short,
    // 7: no links of the window chain the two cells
    NoTrail,
    // 9: no such file, records or record has this length
    Length,
    // 10: the last four bytes are not KERB
    Letters,
    // 11: offset, m and the file's length do not agree
    Offset,
    // 12: a pad byte is not 0
    Pad,
    // 13: a line of the text breaks the form
    Form,
    // 14: the two cells of a link do not touch
    Apart,
    // 15: the body mask is too short, or has another value than 0 and 1
    Mask,
}

impl From<Refusal> for u8 {
    ghost from_gives = { λ refusal number. number ≡ code_of refusal };

    fn from(refusal: Refusal) -> u8 {
        match refusal {
            Refusal::OutOfOrder => 1,
            Refusal::Settings => 2,
            Refusal::NoCell => 3,
            Refusal::Late => 4,
            Refusal::Full => 5,
            Refusal::Short => 6,
            Refusal::NoTrail => 7,
            Refusal::Length => 9,
            Refusal::Letters => 10,
            Refusal::Offset => 11,
            Refusal::Pad => 12,
            Refusal::Form => 13,
            Refusal::Apart => 14,
            Refusal::Mask => 15,
        }
    }
}

// The number that a call gives which has nothing else to tell: 0 for done.
pub fn number(answer: Result<(), Refusal>) -> u8
    ensures { result ≡ number_of answer }
{
    match answer {
        Ok(()) => 0,
        Err(refusal) => u8::from(refusal),
    }
}
