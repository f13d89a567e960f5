// The lines of the bench program.
ghost use Rattle.std.specs.Prelude.{◌+◌, ◌≤◌, length};
ghost use Rattle.numbers.specs.Places.{Put};
ghost use Rattle.bench.specs.Bench.{dart_line, last_line};

use crate::answer::shown;
use model::Answer;
use program::answer::number;
use program::lines::{field, numbers_line, text};

pub fn dart_line(out: &mut [u8], at: usize, dart: u32, a: Answer) -> usize
    requires { at + length (dart_line dart a) ≤ length out.old }
    ensures { Put out.old at (dart_line dart a) out.new result }
{
    let values = shown(a);
    let line = [dart, number(a), values.orbit, values.added, values.deleted];
    numbers_line(out, at, &line)
}

pub fn last_line(out: &mut [u8], at: usize, live: u32, unused: u32) -> usize
    requires { at + length (last_line live unused) ≤ length out.old }
    ensures { Put out.old at (last_line live unused) out.new result }
{
    let first = field(out, at, b"live ", live);
    let second = field(out, first, b" unused ", unused);
    text(out, second, b"\n")
}
