// Which line is due, and the refusals of Line (01, "What a caller is told").
ghost use Rattle.std.specs.Prelude.{◌≡◌, ◌≤◌, ◌<◌};
ghost use Rattle.laws.specs.Refusals.{number_in};
ghost use Rattle.picture.specs.Lines.{among, monitored, due_line, order_number, judged_number};

use laws::Refusal;
use sampling::Row;

// Whether a line is one of the 16 from first on, step apart.
fn is_among(first: usize, step: usize, number: usize) -> bool
    requires { 0 < step }
    ensures { result ≡ among first step 16 number }
{
    if number < first {
        return false;
    }
    let d = number - first;
    d % step == 0 && d / step < 16
}

// Whether a line is monitored, in either field.
pub(crate) fn in_either_field(r: Row, number: usize) -> bool
    requires { 0 < r.vstep }
    ensures { result ≡ monitored r number }
{
    is_among(r.vstart1, r.vstep, number) || r.vstart2 != 0 && is_among(r.vstart2, r.vstep, number)
}

// The number of the line that is due: row `row` of field 1 or 2.
pub(crate) fn due_line(r: Row, field: u8, row: usize) -> usize
    requires { (row < 16) × ((r.vstart1 ≤ 2250) × ((r.vstart2 ≤ 2250) × (r.vstep ≤ 2250))) }
    ensures { result ≡ due_line r field row }
{
    let first = if field == 1 { r.vstart1 } else { r.vstart2 };
    first + r.vstep * row
}

// 4 and 5.
fn check_order(r: Row, due: usize, ready: bool, number: usize) -> Result<(), Refusal>
    requires { 0 < r.vstep }
    ensures { number_in result ≡ order_number r due ready number }
{
    if number != due {
        if in_either_field(r, number) {
            Err(Refusal::NotTheDueLine)
        } else {
            Ok(())
        }
    } else if ready && number == r.vstart1 {
        Err(Refusal::FrameWaits)
    } else {
        Ok(())
    }
}

// What refuses a line. A row that no run makes gives 1, as an empty session does.
pub(crate) fn check(
    format: u8,
    field: u8,
    row: usize,
    ready: bool,
    number: usize,
    len: usize,
) -> Result<(), Refusal>
    ensures { number_in result ≡ judged_number format field row ready number len }
{
    if 8 <= format || 16 <= row {
        return Err(Refusal::NotListed);
    }
    let r = sampling::row_of(format);
    if len != 2 * r.width {
        return Err(Refusal::LineLength);
    }
    if number < 1 || r.lines < number {
        return Err(Refusal::NoSuchLine);
    }
    check_order(r, due_line(r, field, row), ready, number)
}
