// Days of months and years.
ghost use Rattle.std.specs.Prelude.{◌≡◌, ◌<◌, ◌≤◌};
ghost use Rattle.calendar.specs.Dates.{before, day_of_month, day_of_year, month_days, month_of, year_days, year_of};

// The days of a month, none where there is no such month.
#[tactic(auto, using(crate::proofs::Years::leap, crate::proofs::Years::common), unfolding(crate::specs::Dates::month_days))]
pub fn month_days(year: u8, month: u8) -> u8
    ensures { result ≡ month_days year month }
{
    match month {
        1 | 3 | 5 | 7 | 8 | 10 | 12 => 31,
        4 | 6 | 9 | 11 => 30,
        2 if year % 4 == 0 => 29,
        2 => 28,
        _ => 0,
    }
}

// The days of the months before `month`.
// Stays: year and month are two bytes of a date; a struct of them would be made for these calls alone.
pub fn days_before_month(year: u8, month: u8) -> u16
    ensures { result ≡ before (month_days year) month }
{
    (0..month)
        .map(|earlier| u16::from(month_days(year, earlier)))
        .sum()
}

// The month and the day of the month at a day of a year, counted from 0.
pub fn month_and_day(year: u8, day: u16) -> (u8, u8)
    requires { day < year_days year }
    ensures month { result.0 ≡ month_of year day }
    ensures day { result.1 ≡ day_of_month year day }
{
    let mut left = day;
    // Stays: the loop goes over the months themselves; a chain would sum the days before each month anew.
    for month in 1..12 {
        let days = u16::from(month_days(year, month));
        if left < days {
            return (month, left as u8 + 1);
        }
        left -= days;
    }
    (12, left as u8 + 1)
}

// The days of the years before `year`.
#[tactic(auto, using(crate::proofs::Years::before_year))]
pub fn days_before_year(year: u8) -> u32
    ensures { result ≡ before year_days year }
{
    let year = u32::from(year);
    365 * year + (year + 3) / 4
}

// The year of a day number and the day in that year, from 0. Four years have 1461 days, the first of them
// one more than each other.
#[tactic(auto, using(crate::proofs::Years::in_years))]
pub fn year_and_day(days: u32) -> (u8, u16)
    requires { days ≤ 36524 }
    ensures year { result.0 ≡ year_of days }
    ensures day { result.1 ≡ day_of_year days }
    ensures within { result.1 < year_days result.0 }
{
    let year = (4 * days / 1461) as u8;
    (year, (days - days_before_year(year)) as u16)
}
