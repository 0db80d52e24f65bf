// The calendar of terms for C, as the crate calendar has it: the day of a date, and the day of a number. They are about no
// card, so they take no role.
ghost use Rattle.std.specs.Prelude.{◌≡◌};
ghost use Rattle.calendar.specs.Days.{day_of_date, day_of_number};

use calendar::days::DayReply;

#[unsafe(no_mangle)]
pub extern "C" fn pagunlit_day_of_date(year: u32, month: u32, day: u32) -> DayReply
    ensures { result ≡ day_of_date year month day }
{
    calendar::days::day_of_date(year, month, day)
}

#[unsafe(no_mangle)]
pub extern "C" fn pagunlit_day_of_number(days: u32) -> DayReply
    ensures { result ≡ day_of_number days }
{
    calendar::days::day_of_number(days)
}
