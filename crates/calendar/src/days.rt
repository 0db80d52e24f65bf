// The calendar for C: the day number of a date, and the date of a day number, each handed back with both.
ghost use Rattle.std.specs.Prelude.{◌≡◌, ◌+◌, ◌≤◌, ◌<◌};
ghost use Rattle.calendar.specs.Calendar.{before_month, before_year};
ghost use Rattle.calendar.specs.Days.{day_of_date, day_of_number, no_day};

use crate::{before_month, day_number, leap_day};

// A day: 0 or the refusal's number, the days since 1 January 2000, and the date. With a refusal all but its number is 0.
#[repr(C)]
#[derive(Clone, Copy)]
pub struct DayReply {
    pub number: u32,
    pub days: u32,
    pub year: u32,
    pub month: u32,
    pub day: u32,
}

// The refusal of what is no date of the span.
const NO_DATE: u32 = 19;

// 31 December 2099.
const LAST_DAY: u32 = 36524;

fn no_day() -> DayReply
    ensures { result ≡ no_day }
{
    DayReply {
        number: NO_DATE,
        days: 0,
        year: 0,
        month: 0,
        day: 0,
    }
}

// The year of a day: four years have 1461 days, of which the first has the leap day.
fn year_of(days: u32) -> u32
    requires { days ≤ 36524 }
    ensures { (2000 ≤ result) × (result ≤ 2099) × (before_year result ≤ days) × (days < before_year (result + 1)) }
{
    2000 + 4 * days / 1461
}

// Days of the span before a year.
fn before_year(year: u32) -> u32
    requires { (2000 ≤ year) × (year ≤ 2099) }
    ensures { result ≡ before_year year }
{
    let years = year - 2000;
    365 * years + (years + 3) / 4
}

// The month of a day of a year with that leap day, counted from 0: from March on the months take 153 days for each five.
fn month_of(leap: u32, rest: u32) -> u32
    requires { (leap ≤ 1) × (rest < 365 + leap) }
    ensures { (1 ≤ result) × (result ≤ 12) × (before_month leap result ≤ rest) × (rest < before_month leap (result + 1)) }
{
    if rest < 59 + leap {
        return rest / 31 + 1;
    }
    (5 * (rest - 59 - leap) + 2) / 153 + 3
}

// The day of a date.
pub fn day_of_date(year: u32, month: u32, day: u32) -> DayReply
    ensures { result ≡ day_of_date year month day }
{
    match day_number(year, month, day) {
        Some(days) => DayReply {
            number: 0,
            days,
            year,
            month,
            day,
        },
        None => no_day(),
    }
}

// The day of a number.
pub fn day_of_number(days: u32) -> DayReply
    ensures { result ≡ day_of_number days }
{
    if days <= LAST_DAY {
        let year = year_of(days);
        let rest = days - before_year(year);
        let leap = leap_day(year);
        let month = month_of(leap, rest);
        let before = before_month(leap, month);
        return DayReply {
            number: 0,
            days,
            year,
            month,
            day: rest - before + 1,
        };
    }
    no_day()
}
