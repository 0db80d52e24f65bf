// The standing of a sheet and the rows that every call begins with (document 01, "Shape, catalogue, blocks" and "What the
// caller gets instead"); and the answers of a call.
#![tactic(auto)]

ghost use Rattle.std.specs.Prelude.{◌≡◌, Err};
ghost use Rattle.catalogue_standings.specs.Refusals.{number};
ghost use Rattle.catalogue_standings.specs.Answers.{answer_in};

pub mod opening;

// What an entry says. An Open and a Complete sheet have a start and a length. A paused sheet has blocks or none: it was Absent
// before (`Paused`), or it was Complete and keeps start and length (`PausedWith`; document 02 (g)).
#[derive(Clone, Copy, PartialEq, Eq)]
pub enum Standing {
    Absent,
    Paused,
    PausedWith(u32, u32),
    Open(u32, u32),
    Complete(u32, u32),
    Damaged,
}

// What a call answers: that it was done, a start and the space behind it, a standing's mark, start and length, a survey's
// counts, whether a summary is the map's own (1 or 0), the lowest blank place, which goes with 9, or another refusal's number.
#[derive(Clone, Copy, PartialEq, Eq)]
pub enum Answer {
    Done,
    Start(u32, u32),
    Reads(u32, u32, u32),
    Counted(u32, u32, u32),
    Own(u32),
    Blank(u32),
    Refused(u32),
}

// Why a call is refused: the row of document 01's table that holds. 9 goes with a place (`Answer::Blank`), and 16 is of dose
// counts (crate counts), so neither is here.
#[derive(Clone, Copy, PartialEq, Eq)]
pub enum Refusal {
    Misfit,
    NoSuchSheet,
    WrongLength,
    Damaged,
    IsAbsent,
    IsPaused,
    IsOpen,
    IsComplete,
    NoFit,
    NotFreeBehind,
    ImageLength,
    ImageFrame,
    ImageContent,
    WrongFigures,
    RunTaken,
    OverShare,
    NoDate,
    OutsideTerm,
    TurnedAway,
}

impl Refusal {
    // The row's number, which is what document 01 answers and C is given.
    pub fn number(self) -> u32
        ensures { result ≡ number self }
    {
        match self {
            Refusal::Misfit => 1,
            Refusal::NoSuchSheet => 2,
            Refusal::WrongLength => 3,
            Refusal::Damaged => 4,
            Refusal::IsAbsent => 5,
            Refusal::IsPaused => 6,
            Refusal::IsOpen => 7,
            Refusal::IsComplete => 8,
            Refusal::NoFit => 10,
            Refusal::NotFreeBehind => 11,
            Refusal::ImageLength => 12,
            Refusal::ImageFrame => 13,
            Refusal::ImageContent => 14,
            Refusal::WrongFigures => 15,
            Refusal::RunTaken => 17,
            Refusal::OverShare => 18,
            Refusal::NoDate => 19,
            Refusal::OutsideTerm => 20,
            Refusal::TurnedAway => 21,
        }
    }
    // What the caller is answered: an answer has the number, which is what document 01 and the ledger speak of and C is given.
    pub fn answer(self) -> Answer
        ensures { result ≡ answer_in (Err self) }
    {
        Answer::Refused(self.number())
    }
}
