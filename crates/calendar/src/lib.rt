// The calendar of a course's term (document 02, request (m)): dates from 1 January 2000, day 0, to 31 December 2099. Years
// divisible by 4 in this span are leap years. The term is the two days, first and last, that the payload of place 0 starts
// with.
#![tactic(auto)]

pub mod days;

ghost use Rattle.std.specs.Prelude.{◌≡◌, ◌≤◌, length};
ghost use Rattle.calendar.specs.Calendar.{leap_day, month_length, before_month, in_span, is_date, dated_of};
ghost use Rattle.calendar.specs.Term.{term_of, in_term, wrong_length, number_in, term_answer, with_term};

use block_bytes::{get4, put4};
use block_seals::PAYLOAD;

// The refusal of a payload of another length.
#[derive(Clone, Copy, PartialEq, Eq, Debug)]
pub struct WrongLength;

impl WrongLength {
    // The row of the refusal.
    pub fn number(self) -> u32
        ensures { result ≡ wrong_length }
    {
        3
    }
}

const FIRST_YEAR: u32 = 2000;

const LAST_YEAR: u32 = 2099;

// How many leap days a year has: 1 or 0, as a summand.
#[tactic(auto, unfolding(crate::specs::Calendar::leap_day))]
fn leap_day(year: u32) -> u32
    ensures { (result ≡ leap_day year) × (result ≤ 1) }
{
    u32::from(year % 4 == 0)
}

// Days of a month of a year with that leap day.
fn month_length(leap: u32, month: u32) -> u32
    requires { (leap ≤ 1) × (1 ≤ month) × (month ≤ 12) }
    ensures { result ≡ month_length leap month }
{
    if month == 2 {
        return 28 + leap;
    }
    (month + month / 8) % 2 + 30
}

// Days of such a year before a month: from March on the months take 153 days for each five.
fn before_month(leap: u32, month: u32) -> u32
    requires { (leap ≤ 1) × (1 ≤ month) × (month ≤ 12) }
    ensures { (result ≡ before_month leap month) × (result ≤ 335) }
{
    if month <= 2 {
        return 31 * (month - 1);
    }
    (153 * month - 457) / 5 + 59 + leap
}

// Whether x is low to high.
#[tactic(auto, unfolding(crate::specs::Calendar::in_span))]
fn in_span(x: u32, low: u32, high: u32) -> bool
    ensures { result ≡ in_span low high x }
{
    (low..=high).contains(&x)
}

// Whether there is such a date, for any numbers.
pub fn is_date(year: u32, month: u32, day: u32) -> bool
    ensures { result ≡ is_date year month day }
{
    in_span(year, FIRST_YEAR, LAST_YEAR)
        && in_span(month, 1, 12)
        && in_span(day, 1, month_length(leap_day(year), month))
}

// The number of a date's day.
pub fn day_number(year: u32, month: u32, day: u32) -> Option<u32>
    ensures { result ≡ dated_of year month day }
{
    if is_date(year, month, day) {
        let years = year - FIRST_YEAR;
        let leap = leap_day(year);
        let before = before_month(leap, month);
        return Some(365 * years + (years + 3) / 4 + before + (day - 1));
    }
    None
}

// Whether a day lies in the term that a payload starts with: first and last day in four bytes each, the high byte first.
pub fn in_term(payload: &[u8], day: u32) -> bool
    requires { length payload.now ≡ 496 }
    ensures { result ≡ in_term (term_of payload.now) day }
{
    in_span(day, get4(payload, 0), get4(payload, 4))
}

// Writes the two days that a payload starts with: those eight bytes and no others.
pub fn write_term(payload: &mut [u8], first: u32, last: u32) -> Result<(), WrongLength>
    ensures { (number_in result ≡ term_answer payload.old)
        × (payload.new ≡ with_term payload.old first last) }
{
    if payload.len() != PAYLOAD {
        return Err(WrongLength);
    }
    put4(&mut payload[0..4], first);
    put4(&mut payload[4..8], last);
    Ok(())
}
