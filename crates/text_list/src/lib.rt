// Text lists of links: what the two calls over them answer. What they give is in specs, that text and file lead to one another in proofs;
// the code stands in the crates text_in and text_out.
#![tactic(auto)]

ghost use Rattle.std.specs.Prelude.{◌≡◌};
ghost use Rattle.text_list.specs.Call.{told_in, told_out};

use refusals::Refusal;

// Why a text is not brought in; with `Refusal::Form` the line that breaks the form, counted from 0, and else 0.
#[derive(Clone, Copy)]
pub struct Refused {
    pub refusal: Refusal,
    pub line: u64,
}

impl From<Refusal> for Refused {
    ghost from_gives = { λ refusal refused. refused ≡ record { refusal = refusal; line = 0 } };

    fn from(refusal: Refusal) -> Refused {
        Refused { refusal, line: 0 }
    }
}

// What bringing a text in gives, for C: how many bytes of file stand at the front of the output; with number 13 the line that breaks the
// form, counted from 0. With a number that is not 0 all else is 0, but for that line.
#[repr(C)]
#[derive(Clone, Copy)]
pub struct TextInAnswer {
    pub length: usize,
    pub line: u64,
    pub number: u8,
}

impl From<Result<usize, Refused>> for TextInAnswer {
    ghost from_gives = { λ given answer. answer ≡ told_in given };

    fn from(given: Result<usize, Refused>) -> TextInAnswer {
        match given {
            Ok(length) => TextInAnswer {
                length,
                line: 0,
                number: 0,
            },
            Err(refused) => TextInAnswer {
                length: 0,
                line: refused.line,
                number: u8::from(refused.refusal),
            },
        }
    }
}

// What putting a file out as text gives, for C: how many bytes of text stand at the front of the output. With a number that is not 0 it is 0.
#[repr(C)]
#[derive(Clone, Copy)]
pub struct TextOutAnswer {
    pub length: usize,
    pub number: u8,
}

impl From<Result<usize, Refusal>> for TextOutAnswer {
    ghost from_gives = { λ given answer. answer ≡ told_out given };

    fn from(given: Result<usize, Refusal>) -> TextOutAnswer {
        match given {
            Ok(length) => TextOutAnswer { length, number: 0 },
            Err(refusal) => TextOutAnswer {
                length: 0,
                number: u8::from(refusal),
            },
        }
    }
}
