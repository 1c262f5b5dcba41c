// Whole seconds from 2000-01-01T00:00:00Z to the end of 2099, and their written form `YYYY-MM-DDTHH:MM:SSZ`.
#![tactic(auto)]

ghost use Rattle.std.specs.Prelude.{◌≡◌, ℕ, ◌+◌, ◌-◌, ◌<◌, ◌≤◌, length, IfOk, MatchBool, MatchOption, MatchResult};
ghost use Rattle.calendar.specs.Calendar.{month_length, days_before_month, year_length, days_before_year, Lawful, day_of, second_of, last_second, text_of, Denotes, NoSecond, NoText, ReadsBack, WritesBack};
ghost use Rattle.calendar.specs.Form.{Marked, Field, NoCivil, with_digits};

use decimal::{fixed_value, write_fixed};
use refusal::Refusal;

// The second of 2099-12-31T23:59:59Z.
pub const LAST_SECOND: u32 = 3_155_759_999;

const SECONDS_OF_DAY: u32 = 86_400;

// The second that a text `YYYY-MM-DDTHH:MM:SSZ` stands for; any other text is refused.
pub fn read(text: &[u8]) -> Result<u32, Refusal>
    ensures denotes { MatchResult result (λ s. Denotes text.now s) (λ e. (e ≡ Refusal.BadValue) × NoSecond text.now) }
    ensures writes_back { IfOk result (λ s. WritesBack text.now s) }
{
    let civil = Civil::parse(text).ok_or(Refusal::BadValue)?;
    Ok(civil.seconds())
}

// The text of a second, up to the last.
pub fn write(second: u32) -> Result<[u8; 20], Refusal>
    ensures denotes { MatchResult result (λ t. (second ≤ last_second) × Denotes t second) (λ e. (e ≡ Refusal.OutOfRange) × (last_second < second) × NoText second) }
    ensures reads_back { IfOk result (λ t. ReadsBack t second) }
{
    if second > LAST_SECOND {
        return Err(Refusal::OutOfRange);
    }
    Ok(Civil::at(second).text())
}

// A civil time, in UTC. It is public only so that contracts can name it. Kept: that it is lawful is no invariant of the
// type; one would hide in the type what `Denotes` says in the open, and whoever speaks of a civil time would have to build it.
#[derive(Drop)]
pub struct Civil {
    year: u16,
    month: u8,
    day: u8,
    hour: u8,
    minute: u8,
    second: u8,
}

impl Civil {
    // A time of the years 2000 to 2099 that exists.
    fn is_lawful(&self) -> bool
        ensures { MatchBool result (Lawful self.now) (Lawful self.now → ⊥) }
    {
        2000 <= self.year
            && self.year <= 2099
            && 1 <= self.month
            && self.month <= 12
            && 1 <= self.day
            && self.day <= month_length(self.year, self.month)
            && self.hour <= 23
            && self.minute <= 59
            && self.second <= 59
    }

    // The civil time at a second. Kept: `Civil::at(second)` says what the number is, which a `From` would not, and asks that
    // it is no later than the last.
    fn at(second: u32) -> Civil
        requires { second ≤ last_second }
        ensures lawful { Lawful result }
        ensures counted { second ≡ second_of result }
    {
        let day = second / SECONDS_OF_DAY;
        let time = second % SECONDS_OF_DAY;
        let year = 2000 + (day * 4 / 1461) as u16;
        let (month, day) = month_and_day(year, day - days_before_year(year));
        Civil {
            year,
            month,
            day,
            hour: (time / 3600) as u8,
            minute: (time / 60 % 60) as u8,
            second: (time % 60) as u8,
        }
    }

    // The whole days from 2000-01-01.
    fn days(&self) -> u32
        requires { Lawful self.now }
        ensures value { result ≡ day_of self.now }
        ensures bound { result < 36_525 }
    {
        days_before_year(self.year)
            + days_before_month(self.year, self.month)
            + u32::from(self.day - 1)
    }

    // The whole seconds from 2000-01-01T00:00:00Z.
    fn seconds(&self) -> u32
        requires { Lawful self.now }
        ensures { result ≡ second_of self.now }
    {
        let minutes = (self.days() * 24 + u32::from(self.hour)) * 60 + u32::from(self.minute);
        minutes * 60 + u32::from(self.second)
    }

    // Its text `YYYY-MM-DDTHH:MM:SSZ`.
    fn text(&self) -> [u8; 20]
        ensures { result ≡ text_of self.now }
    {
        let mut text = *b"0000-00-00T00:00:00Z";
        write_at(&mut text, 0, 4, u64::from(self.year));
        write_at(&mut text, 5, 2, u64::from(self.month));
        write_at(&mut text, 8, 2, u64::from(self.day));
        write_at(&mut text, 11, 2, u64::from(self.hour));
        write_at(&mut text, 14, 2, u64::from(self.minute));
        write_at(&mut text, 17, 2, u64::from(self.second));
        text
    }

    // The lawful civil time that the text is of.
    fn parse(text: &[u8]) -> Option<Civil>
        ensures { MatchOption result (NoCivil text.now) (λ c. Lawful c × (text.now ≡ text_of c)) }
    {
        if !has_marks(text) {
            return None;
        }
        let civil = Civil {
            year: number_at(text, 0, 4)? as u16,
            month: number_at(text, 5, 2)? as u8,
            day: number_at(text, 8, 2)? as u8,
            hour: number_at(text, 11, 2)? as u8,
            minute: number_at(text, 14, 2)? as u8,
            second: number_at(text, 17, 2)? as u8,
        };
        if civil.is_lawful() { Some(civil) } else { None }
    }
}

// The days of a month, 1 to 12.
fn month_length(year: u16, month: u8) -> u8
    requires { month ≤ 12 }
    ensures { result ≡ month_length year month }
{
    if month == 2 {
        if year % 4 == 0 { 29 } else { 28 }
    } else {
        30 + (month + month / 8) % 2
    }
}

// The days of the earlier months of the year.
fn days_before_month(year: u16, month: u8) -> u32
    requires { (1 ≤ month) × (month ≤ 12) }
    ensures value { result ≡ days_before_month year month }
    ensures bound { result ≤ 3060 }
{
    // Kept: a `for`, since `.map(..).sum()` was tried, and what `month_length` asks of each month stayed open.
    let mut days = 0;
    for earlier in 1..month {
        days += u32::from(month_length(year, earlier));
    }
    days
}

// The days of the earlier years: four have 1,461, and the first of four is the one of 366.
fn days_before_year(year: u16) -> u32
    requires { (2000 ≤ year) × (year ≤ 2099) }
    ensures value { result ≡ days_before_year year }
    ensures bound { result ≤ 36_525 }
{
    (u32::from(year - 2000) * 1461 + 3) / 4
}

// The month and its day, at a day of the year that is counted from 0.
fn month_and_day(year: u16, day_of_year: u32) -> (u8, u8)
    requires { (2000 ≤ year) × ((year ≤ 2099) × (day_of_year < year_length year)) }
    ensures month { (1 ≤ result.0) × (result.0 ≤ 12) }
    ensures day { (1 ≤ result.1) × (result.1 ≤ month_length year result.0) }
    ensures counted { days_before_month year result.0 + (result.1 - 1) ≡ day_of_year }
{
    let mut rest = day_of_year;
    for month in 1..=12 {
        let length = u32::from(month_length(year, month));
        if rest < length {
            return (month, rest as u8 + 1);
        }
        rest -= length;
    }
    unreachable!()
}

// There are 20 bytes, and the marks stand in their places. Kept: by their places, since a slice pattern of 20 is longer.
fn has_marks(text: &[u8]) -> bool
    ensures { MatchBool result (Marked text.now) (Marked text.now → ⊥) }
{
    text.len() == 20
        && text[4] == b'-'
        && text[7] == b'-'
        && text[10] == b'T'
        && text[13] == b':'
        && text[16] == b':'
        && text[19] == b'Z'
}

// The number that the digits at a place write. Kept: a place and a width, where a range would hide the width in a difference.
fn number_at(text: &[u8], place: usize, width: usize) -> Option<u64>
    requires { (place + width ≤ length text.now) × ((1 ≤ width) × (width ≤ 18)) }
    ensures { MatchOption result ((n : ℕ) → Field text.now place width n → ⊥) (λ n. Field text.now place width n) }
{
    fixed_value(&text[place..place + width])
}

// Writes the number in digits at a place.
fn write_at(text: &mut [u8], place: usize, width: usize, number: u64)
    requires { place + width ≤ length text.old }
    ensures { text.new ≡ with_digits text.old place width number }
{
    write_fixed(number, &mut text[place..place + width]);
}
