//! The dates of moments.

ghost use Rattle.std.specs.Prelude.{◌≡◌, ◌≤◌, ◌<◌, ◌/◌, ◌%◌, pos, slice_index_or, []};
ghost use Rattle.rpm_qfeval.specs.Prelude.{date_text, day_of, day_text, epoch_day, four, monday_zero, month_name, month_of, spaced_number, time_seconds, two, weekday_name, weekday_names, year_of};

use jiff::Timestamp;
use jiff::civil::{DateTime, Weekday};
use jiff::tz::Offset;

fn weekday_name(weekday: Weekday) -> [u8; 3]
    ensures { result ≡ slice_index_or weekday_names (monday_zero weekday) [] }
{
    match weekday {
        Weekday::Monday => *b"Mon",
        Weekday::Tuesday => *b"Tue",
        Weekday::Wednesday => *b"Wed",
        Weekday::Thursday => *b"Thu",
        Weekday::Friday => *b"Fri",
        Weekday::Saturday => *b"Sat",
        Weekday::Sunday => *b"Sun",
    }
}

fn month_name(month: u8) -> [u8; 3]
    requires low { 1 ≤ month }
    requires high { month ≤ 12 }
    ensures { result ≡ month_name month }
{
    match month {
        1 => *b"Jan",
        2 => *b"Feb",
        3 => *b"Mar",
        4 => *b"Apr",
        5 => *b"May",
        6 => *b"Jun",
        7 => *b"Jul",
        8 => *b"Aug",
        9 => *b"Sep",
        10 => *b"Oct",
        11 => *b"Nov",
        _ => *b"Dec",
    }
}

fn two(number: u8) -> [u8; 2]
    requires { number < 100 }
    ensures { result ≡ two number }
{
    [b'0' + number / 10, b'0' + number % 10]
}

fn spaced(number: u8) -> [u8; 2]
    requires { number < 100 }
    ensures { result ≡ spaced_number number }
{
    let tens = if number < 10 {
        b' '
    } else {
        b'0' + number / 10
    };
    [tens, b'0' + number % 10]
}

fn four(number: u16) -> [u8; 4]
    requires { number < 10000 }
    ensures { result ≡ four number }
{
    let [thousands, hundreds] = two((number / 100) as u8);
    let [tens, ones] = two((number % 100) as u8);
    [thousands, hundreds, tens, ones]
}

/// The parts of a date and of a time of day, of the years 1970 to 2106.
#[derive(Drop)]
struct DateParts {
    weekday: [u8; 3],
    month: [u8; 3],
    day: u8,
    year: u16,
    hour: u8,
    minute: u8,
    second: u8,
}

fn datetime(second: u32) -> DateTime
    ensures day { epoch_day result.date ≡ pos (second / 86400) }
    ensures time { time_seconds result.time ≡ second % 86400 }
{
    match Timestamp::from_second(second as i64) {
        Ok(timestamp) => Offset::UTC.to_datetime(timestamp),
        Err(_) => unreachable!(),
    }
}

/// So many seconds since 1970 in UTC, by the calendar of `jiff`.
fn moment(second: u32) -> DateParts
    ensures weekday { result.weekday ≡ weekday_name (second / 86400) }
    ensures month { result.month ≡ month_name (month_of (second / 86400)) }
    ensures day { result.day ≡ day_of (second / 86400) }
    ensures year { result.year ≡ year_of (second / 86400) }
    ensures hour { result.hour ≡ second % 86400 / 3600 }
    ensures minute { result.minute ≡ second % 86400 / 60 % 60 }
    ensures second { result.second ≡ second % 86400 % 60 }
    ensures days { result.day < 100 }
    ensures years { result.year < 10000 }
{
    let datetime = datetime(second);
    let date = datetime.date();
    let time = datetime.time();
    DateParts {
        weekday: weekday_name(date.weekday()),
        month: month_name(date.month() as u8),
        day: date.day() as u8,
        year: date.year() as u16,
        hour: time.hour() as u8,
        minute: time.minute() as u8,
        second: time.second() as u8,
    }
}

/// The date, as `Tue Jan 02 2024`, of so many seconds since 1970.
pub fn day(second: u32) -> [u8; 15]
    ensures { result ≡ day_text (second / 86400) }
{
    let moment = moment(second);
    let [w1, w2, w3] = moment.weekday;
    let [m1, m2, m3] = moment.month;
    let [d1, d2] = two(moment.day);
    let [y1, y2, y3, y4] = four(moment.year);
    [
        w1, w2, w3, b' ', m1, m2, m3, b' ', d1, d2, b' ', y1, y2, y3, y4,
    ]
}

/// The date and the time, as `Tue Jan  2 03:04:05 2024`, of so many seconds since 1970.
pub fn date(second: u32) -> [u8; 24]
    ensures { result ≡ date_text (second / 86400) (second % 86400) }
{
    let moment = moment(second);
    let [w1, w2, w3] = moment.weekday;
    let [m1, m2, m3] = moment.month;
    let [d1, d2] = spaced(moment.day);
    let [h1, h2] = two(moment.hour);
    let [n1, n2] = two(moment.minute);
    let [s1, s2] = two(moment.second);
    let [y1, y2, y3, y4] = four(moment.year);
    [
        w1, w2, w3, b' ', m1, m2, m3, b' ', d1, d2, b' ', h1, h2, b':', n1, n2, b':', s1, s2, b' ',
        y1, y2, y3, y4,
    ]
}
