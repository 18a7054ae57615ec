// Minutes from 1 January 00:00 of a year as a month, a day, an hour and a minute, and back.
#![tactic(auto)]

ghost use Rattle.std.specs.Prelude.{◌≡◌, ◌<◌};
ghost use Rattle.calendar.specs.Calendar.{months, days_in, month_in, day_in, date_of, minute_of, minute_in};

// A day of a year by its month and its number in it, both from 1, and a time of that day.
#[derive(Clone, Copy)]
pub struct Date {
    pub month: u32,
    pub day: u32,
    pub hour: u32,
    pub minute: u32,
}

// The days of a month of a year from 2000 to 2099, from 1 for January; past December none.
#[tactic(auto, using(crate::proofs::MonthLaws::days_known), unfolding(crate::specs::Calendar::days_in))]
fn days_in(year: u16, month: u32) -> u32
    ensures { result ≡ days_in year month }
{
    match month {
        2 if year % 4 == 0 => 29,
        2 => 28,
        4 | 6 | 9 | 11 => 30,
        1..=12 => 31,
        _ => 0,
    }
}

// The month that a day of a year falls in, the day counted from 0, and its number there, from 1. Past the year's end the month is 13, and the days go on.
#[tactic(auto, using(crate::proofs::MonthLaws::months_searched))]
fn day_of(year: u16, day: u32) -> (u32, u32)
    requires { day < 4294967295 }
    ensures month { result.0 ≡ month_in (months year) day }
    ensures day { result.1 ≡ day_in (months year) day }
{
    let mut left = day;
    for month in 1..=12 {
        let days = days_in(year, month);
        if left < days {
            return (month, left + 1);
        }
        left -= days;
    }
    (13, left + 1)
}

// The date of a minute of a year. Past the year's end the month is 13, and the days go on.
#[tactic(auto, using(crate::proofs::MonthLaws::date_is))]
pub fn date_of(year: u16, time: u32) -> Date
    ensures { result ≡ date_of year time }
{
    let (month, day) = day_of(year, time / 1440);
    Date {
        month,
        day,
        hour: time % 1440 / 60,
        minute: time % 60,
    }
}

// The days of a year before a month.
#[tactic(auto, using(crate::proofs::MonthLaws::summed_begins, crate::proofs::MonthLaws::days_at_most))]
fn days_before(year: u16, month: u32) -> u32
    ensures { result ≡ Rattle.calendar.specs.Calendar.days_before year month }
{
    let mut days = 0;
    for m in 1..month.min(13) {
        days += days_in(year, m);
    }
    days
}

// The minute of a date, where the year has that date.
#[tactic(auto, using(crate::proofs::MonthLaws::days_at_most, crate::proofs::MonthLaws::before_at_most), unfolding(crate::specs::Calendar::minute_of))]
pub fn minute_of(year: u16, date: Date) -> Option<u32>
    ensures { minute_in result ≡ minute_of year date }
{
    let days = days_in(year, date.month);
    if date.day == 0 || days < date.day || 23 < date.hour || 59 < date.minute {
        return None;
    }
    let day = days_before(year, date.month) + (date.day - 1);
    Some(day * 1440 + date.hour * 60 + date.minute)
}
