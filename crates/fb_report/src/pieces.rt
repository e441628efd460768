ghost use Rattle.std.specs.Prelude.{◌≡◌, [], ◌∷◌, ◌++◌, map, codes, decimal, OnOk, OnErr};
ghost use Rattle.fb_ports.specs.Causes.{Appends, AppendsPrefix, HasCause, concat};
ghost use Rattle.fb_report.specs.Texts.{line, line_end, cut_line};

use fb_graph::CutList;
use fb_ports::{Failed, Sink, put_all, put_parts};
use itoa::Buffer;

/// Puts a number between two texts.
pub fn put_number<S: Sink>(
    sink: &mut S,
    before: &[u8],
    number: u64,
    after: &[u8],
) -> Result<(), Failed>
    ensures all { OnOk result (Appends (S.taken sink.old) (S.taken sink.new)
        (before.now ++ (decimal number ++ after.now))) }
    ensures prefix { OnErr result (AppendsPrefix (S.taken sink.old) (S.taken sink.new)
        (before.now ++ (decimal number ++ after.now))) }
    ensures cause { HasCause (S.faults sink.old) (S.faults sink.new) result }
{
    let mut buffer = Buffer::new();
    put_parts(sink, &[before, buffer.format(number).as_bytes(), after])
}

/// Ends a line with these numbers as its further words.
pub fn put_line_end<S: Sink>(sink: &mut S, numbers: &[u32]) -> Result<(), Failed>
    ensures all { OnOk result (Appends (S.taken sink.old) (S.taken sink.new)
        (line_end (map decimal numbers.now))) }
    ensures prefix { OnErr result (AppendsPrefix (S.taken sink.old) (S.taken sink.new)
        (line_end (map decimal numbers.now))) }
    ensures cause { HasCause (S.faults sink.old) (S.faults sink.new) result }
{
    for number in numbers {
        let Ok(()) = put_number(sink, b" ", u64::from(*number), b"") else {
            return Err(Failed);
        };
    }
    put_all(sink, b"\n")
}

/// Puts the line of a cut.
pub fn put_cut<S: Sink>(sink: &mut S, value: u64, vertices: &[u32]) -> Result<(), Failed>
    ensures all { OnOk result (Appends (S.taken sink.old) (S.taken sink.new)
        (cut_line (record { value = value; vertices = vertices.now }))) }
    ensures prefix { OnErr result (AppendsPrefix (S.taken sink.old) (S.taken sink.new)
        (cut_line (record { value = value; vertices = vertices.now }))) }
    ensures cause { HasCause (S.faults sink.old) (S.faults sink.new) result }
{
    let Ok(()) = put_number(sink, b"cut ", value, b"") else {
        return Err(Failed);
    };
    put_line_end(sink, vertices)
}

/// Puts the lines of cuts.
pub fn put_cuts<S: Sink>(sink: &mut S, cuts: &CutList) -> Result<(), Failed>
    ensures all { OnOk result (Appends (S.taken sink.old) (S.taken sink.new)
        (concat (map cut_line cuts.now))) }
    ensures prefix { OnErr result (AppendsPrefix (S.taken sink.old) (S.taken sink.new)
        (concat (map cut_line cuts.now))) }
    ensures cause { HasCause (S.faults sink.old) (S.faults sink.new) result }
{
    for place in 0..cuts.len() {
        let Ok(()) = put_cut(sink, cuts.value(place), cuts.vertices(place)) else {
            return Err(Failed);
        };
    }
    Ok(())
}
