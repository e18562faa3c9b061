// Prints a day as yyyy-mm-dd.
ghost use Rattle.std.specs.Prelude.{◌≡◌, ◌+◌, ◌++◌, ◌∷◌, [], ◌<◌, OnOk, string_bytes};
ghost use Rattle.lb_tok.specs.Dates.{date_text, day_text, two};

use lb_base::{NoMemory, civil};

/// A day as yyyy-mm-dd, in days since 1970-01-01, goes to the end of `out`. A number that is no day of the years 0001
/// to 9999 gives nothing. The only error is out of memory.
pub fn push_date(out: &mut String, day: i32) -> Result<(), NoMemory>
    ensures { OnOk result (string_bytes out.new ≡ string_bytes out.old ++ date_text day) }
{
    if day < -719_162 {
        return Ok(());
    }
    if day > 2_932_896 {
        return Ok(());
    }
    let (year, month, day) = civil(day);
    push_parts(
        out,
        year.unsigned_abs(),
        month.unsigned_abs(),
        day.unsigned_abs(),
    )
}

fn push_parts(out: &mut String, year: u64, month: u64, day: u64) -> Result<(), NoMemory>
    ensures { OnOk result (string_bytes out.new ≡ string_bytes out.old ++ day_text year month day) }
{
    push_two(out, year / 100)?;
    push_two(out, year)?;
    out.push_str("-")?;
    push_two(out, month)?;
    out.push_str("-")?;
    push_two(out, day)
}

// The last two decimal digits.
fn push_two(out: &mut String, n: u64) -> Result<(), NoMemory>
    ensures { OnOk result (string_bytes out.new ≡ string_bytes out.old ++ two n) }
{
    push_digit(out, n / 10 % 10)?;
    push_digit(out, n % 10)
}

fn push_digit(out: &mut String, digit: u64) -> Result<(), NoMemory>
    requires { digit < 10 }
    ensures { OnOk result (string_bytes out.new ≡ string_bytes out.old ++ (48 + digit) ∷ []) }
{
    let digit = b'0' + digit as u8;
    out.push(char::from(digit))
}
