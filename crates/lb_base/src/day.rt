// Days as texts, as numbers and as parts.
ghost use Rattle.std.specs.Prelude.{◌≡◌, ◌<◌, ◌+◌, ◌*◌, ◌-◌, pos, unsigned_abs, Some, None, if◌then◌else◌};
ghost use Rattle.std.specs.Char.{IsAsciiDigit};
ghost use Rattle.jiff_core.specs.Calendar.{days_from_civil, IsDate};
ghost use Rattle.lb_base.specs.Days.{day_of, is_written_day, is_true_day, IsDay};

use jiff_core::civil::Date;

/// The day that a text `yyyy-mm-dd` writes, in days since 1970-01-01.
/// None exactly where the text has another form or is no day of the years 0001 to 9999.
#[tactic(auto, using(crate::proofs::Written::digits), unfolding(crate::specs::Days::day_of))]
pub fn date_of(text: &str) -> Option<i32>
    ensures { result ≡ day_of text.now }
{
    let bytes = text.as_bytes();
    if !is_written(bytes) {
        return None;
    }
    let century = two(bytes[0], bytes[1]);
    let year = two(bytes[2], bytes[3]);
    let month = two(bytes[5], bytes[6]);
    let day = two(bytes[8], bytes[9]);
    number_of(century * 100 + year, month, day)
}

fn is_written(bytes: &[u8]) -> bool
    ensures { result ≡ is_written_day bytes.now }
{
    bytes.len() == 10
        && bytes[0].is_ascii_digit()
        && bytes[1].is_ascii_digit()
        && bytes[2].is_ascii_digit()
        && bytes[3].is_ascii_digit()
        && bytes[4] == b'-'
        && bytes[5].is_ascii_digit()
        && bytes[6].is_ascii_digit()
        && bytes[7] == b'-'
        && bytes[8].is_ascii_digit()
        && bytes[9].is_ascii_digit()
}

// The number that two digits spell.
fn two(tens: u8, ones: u8) -> u16
    requires tens { IsAsciiDigit tens }
    requires ones { IsAsciiDigit ones }
    ensures value { result ≡ (tens - 48) * 10 + (ones - 48) }
    ensures small { result < 100 }
{
    u16::from(tens - b'0') * 10 + u16::from(ones - b'0')
}

// The number of a day of the calendar.
fn number_of(year: u16, month: u16, day: u16) -> Option<i32>
    requires year { year < 10000 }
    requires month { month < 100 }
    requires day { day < 100 }
    ensures { result ≡ (if is_true_day year month day then Some (days_from_civil (pos year) month day) else None) }
{
    if year < 1 || month < 1 || month > 12 || day < 1 {
        return None;
    }
    let date = Date::constrain(year as i16, month as u8, day as u8);
    if u16::from(date.day) < day {
        return None;
    }
    Some(date.to_unix_epoch_day())
}

/// Year, month and day of a day number, in days since 1970-01-01.
pub fn civil(day: i32) -> (i64, i64, i64)
    requires { IsDay day }
    ensures number { days_from_civil result.0 (unsigned_abs result.1) (unsigned_abs result.2) ≡ day }
    ensures calendar { IsDate result.0 result.1 result.2 }
{
    match Date::from_unix_epoch_day(i64::from(day)) {
        Ok(date) => (
            i64::from(date.year),
            i64::from(date.month),
            i64::from(date.day),
        ),
        Err(_) => unreachable!(),
    }
}
