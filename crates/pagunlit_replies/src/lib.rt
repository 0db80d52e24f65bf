// What the C library hands back of an outcome: document 01's number and values, as a struct of 32-bit numbers.
#![tactic(auto)]

ghost use Rattle.std.specs.Prelude.{◌≡◌};
ghost use Rattle.pagunlit_replies.specs.Replies.{reply_of};

use card::{Outcome, Shape};
use catalogue_standings::Answer;

// The outcome of a call: the shape, 0 or the refusal's number, and the answer's values, 0 where there are none.
#[repr(C)]
#[derive(Clone, Copy)]
pub struct Reply {
    pub shape: Shape,
    pub number: u32,
    pub first: u32,
    pub second: u32,
    pub third: u32,
}

// Document 01's number and values of the outcome.
pub fn reply_of(outcome: Outcome) -> Reply
    ensures { result ≡ reply_of outcome }
{
    let done = Reply {
        shape: outcome.shape,
        number: 0,
        first: 0,
        second: 0,
        third: 0,
    };
    match outcome.answer {
        Answer::Done => done,
        Answer::Start(start, space) => Reply {
            first: start,
            second: space,
            ..done
        },
        Answer::Reads(mark, start, length) => Reply {
            first: mark,
            second: start,
            third: length,
            ..done
        },
        Answer::Counted(free, runs, longest) => Reply {
            first: free,
            second: runs,
            third: longest,
            ..done
        },
        Answer::Own(own) => Reply { first: own, ..done },
        Answer::Blank(place) => Reply {
            number: 9,
            first: place,
            ..done
        },
        Answer::Refused(number) => Reply { number, ..done },
    }
}
