// A line of six numbers.
ghost use Rattle.std.specs.Prelude.{◌+◌, ◌≤◌, length};
ghost use Rattle.numbers.specs.Places.{Put};
ghost use Rattle.report.specs.Report.{count_line};

use program::lines::numbers_line;

pub fn count_line(out: &mut [u8], at: usize, c: [u32; 6]) -> usize
    requires { at + length (count_line c) ≤ length out.old }
    ensures { Put out.old at (count_line c) out.new result }
{
    numbers_line(out, at, &c)
}
