// The line writer. Its functions put fixed bytes and numbers in decimal at a place of the output, and return the place after them.
ghost use Rattle.std.specs.Prelude.{◌≡◌, ◌++◌, ◌+◌, ◌%◌, ◌≤◌, length};
ghost use Rattle.numbers.specs.Places.{Put};
ghost use Rattle.program.specs.Lines.{decimal as decimal_of, numbers_line, refused_line};

// Puts fixed bytes.
pub fn text(out: &mut [u8], at: usize, bytes: &[u8]) -> usize
    requires { at + length bytes.now ≤ length out.old }
    ensures { Put out.old at bytes.now out.new result }
{
    let end = at + bytes.len();
    out[at..end].copy_from_slice(bytes);
    end
}

fn digit(v: u32) -> u8
    ensures { result ≡ 48 + v % 10 }
{
    b'0' + (v % 10) as u8
}

// Puts v in decimal.
pub fn decimal(out: &mut [u8], at: usize, v: u32) -> usize
    requires { at + length (decimal_of v) ≤ length out.old }
    ensures { Put out.old at (decimal_of v) out.new result }
{
    if v < 10 {
        out[at] = digit(v);
        return at + 1;
    }
    let last = decimal(out, at, v / 10);
    out[last] = digit(v);
    last + 1
}

// Puts fixed bytes, then a number.
pub fn field(out: &mut [u8], at: usize, lead: &[u8], v: u32) -> usize
    requires { at + length (lead.now ++ decimal_of v) ≤ length out.old }
    ensures { Put out.old at (lead.now ++ decimal_of v) out.new result }
{
    let next = text(out, at, lead);
    decimal(out, next, v)
}

// Puts numbers, with a space between any two, and the end of the line.
pub fn numbers_line(out: &mut [u8], at: usize, values: &[u32]) -> usize
    requires not_empty { 1 ≤ length values.now }
    requires line_in_bounds { at + length (numbers_line values.now) ≤ length out.old }
    ensures { Put out.old at (numbers_line values.now) out.new result }
{
    let mut next = decimal(out, at, values[0]);
    for &value in &values[1..] {
        next = field(out, next, b" ", value);
    }
    text(out, next, b"\n")
}

pub fn refused_line(out: &mut [u8], at: usize, number: u32) -> usize
    requires { at + length (refused_line number) ≤ length out.old }
    ensures { Put out.old at (refused_line number) out.new result }
{
    let first = field(out, at, b"refused ", number);
    text(out, first, b"\n")
}
