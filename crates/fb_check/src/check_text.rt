//! The text of a check of a report.

ghost use Rattle.std.specs.Prelude.{◌≡◌, [], ◌∷◌, codes, decimal, OnOk, OnErr};
ghost use Rattle.std.specs.Fmt.{signed_decimal};
ghost use Rattle.fb_ports.specs.Causes.{Appends, AppendsPrefix, HasCause};
ghost use Rattle.fb_report.specs.Texts.{line};
ghost use Rattle.fb_check.specs.Checks.{check_head, check_last, verdict_line};

use fb_ports::{Failed, Sink, put_all, put_parts};
use fb_verify::{Numbers, Verdict};
use itoa::Buffer;

/// Puts the first line of a check, `check-report 1`.
#[tactic(auto, unfolding(crate::specs::Checks::check_head))]
pub fn put_check_head<S: Sink>(sink: &mut S) -> Result<(), Failed>
    ensures all { OnOk result (Appends (S.taken sink.old) (S.taken sink.new) check_head) }
    ensures prefix { OnErr result (AppendsPrefix (S.taken sink.old) (S.taken sink.new) check_head) }
    ensures cause { HasCause (S.faults sink.old) (S.faults sink.new) result }
{
    put_all(sink, b"check-report 1\n")
}

/// Puts the line of a shot, `shot K good` or `shot K bad NAME VALUES`.
#[tactic(auto, unfolding(crate::specs::Checks::verdict_line))]
pub fn put_verdict<S: Sink>(sink: &mut S, shot: u32, verdict: Verdict) -> Result<(), Failed>
    ensures all { OnOk result (Appends (S.taken sink.old) (S.taken sink.new) (verdict_line shot verdict)) }
    ensures prefix { OnErr result (AppendsPrefix (S.taken sink.old) (S.taken sink.new) (verdict_line shot verdict)) }
    ensures cause { HasCause (S.faults sink.old) (S.faults sink.new) result }
{
    match verdict.numbers() {
        Numbers::Nothing => put_bare(sink, shot, verdict.name()),
        Numbers::One(number) => put_number(sink, shot, verdict.name(), number),
        Numbers::Two(first, second) => put_two(sink, shot, verdict.name(), first, second),
    }
}

/// Puts the line of a shot whose verdict has no number.
fn put_bare<S: Sink>(sink: &mut S, shot: u32, name: &str) -> Result<(), Failed>
    ensures all { OnOk result (Appends (S.taken sink.old) (S.taken sink.new) (line (codes "shot") (decimal shot ∷ name.now ∷ []))) }
    ensures prefix { OnErr result (AppendsPrefix (S.taken sink.old) (S.taken sink.new) (line (codes "shot") (decimal shot ∷ name.now ∷ []))) }
    ensures cause { HasCause (S.faults sink.old) (S.faults sink.new) result }
{
    let mut buffer = Buffer::new();
    let shot = buffer.format(shot).as_bytes();
    put_parts(sink, &[b"shot ", shot, b" ", name.as_bytes(), b"\n"])
}

/// Puts the line of a shot whose verdict has a number.
fn put_number<S: Sink>(sink: &mut S, shot: u32, name: &str, number: u64) -> Result<(), Failed>
    ensures all { OnOk result (Appends (S.taken sink.old) (S.taken sink.new)
        (line (codes "shot") (decimal shot ∷ name.now ∷ decimal number ∷ []))) }
    ensures prefix { OnErr result (AppendsPrefix (S.taken sink.old) (S.taken sink.new)
        (line (codes "shot") (decimal shot ∷ name.now ∷ decimal number ∷ []))) }
    ensures cause { HasCause (S.faults sink.old) (S.faults sink.new) result }
{
    let mut one = Buffer::new();
    let mut two = Buffer::new();
    let shot = one.format(shot).as_bytes();
    let number = two.format(number).as_bytes();
    put_parts(
        sink,
        &[b"shot ", shot, b" ", name.as_bytes(), b" ", number, b"\n"],
    )
}

/// Puts the line of a shot whose verdict has two numbers: a weight or a base, and a sum.
fn put_two<S: Sink>(
    sink: &mut S,
    shot: u32,
    name: &str,
    first: i128,
    second: i128,
) -> Result<(), Failed>
    ensures all { OnOk result (Appends (S.taken sink.old) (S.taken sink.new)
        (line (codes "shot") (decimal shot ∷ name.now ∷ signed_decimal first ∷ signed_decimal second ∷ []))) }
    ensures prefix { OnErr result (AppendsPrefix (S.taken sink.old) (S.taken sink.new)
        (line (codes "shot") (decimal shot ∷ name.now ∷ signed_decimal first ∷ signed_decimal second ∷ []))) }
    ensures cause { HasCause (S.faults sink.old) (S.faults sink.new) result }
{
    let mut one = Buffer::new();
    let mut two = Buffer::new();
    let mut three = Buffer::new();
    let shot = one.format(shot).as_bytes();
    let first = two.format(first).as_bytes();
    let second = three.format(second).as_bytes();
    put_parts(
        sink,
        &[
            b"shot ",
            shot,
            b" ",
            name.as_bytes(),
            b" ",
            first,
            b" ",
            second,
            b"\n",
        ],
    )
}

/// Puts the last line of a check, `rows R shots N bad B`.
#[tactic(auto, unfolding(crate::specs::Checks::check_last))]
pub fn put_check_last<S: Sink>(sink: &mut S, rows: u64, shots: u64, bad: u64) -> Result<(), Failed>
    ensures all { OnOk result (Appends (S.taken sink.old) (S.taken sink.new) (check_last rows shots bad)) }
    ensures prefix { OnErr result (AppendsPrefix (S.taken sink.old) (S.taken sink.new) (check_last rows shots bad)) }
    ensures cause { HasCause (S.faults sink.old) (S.faults sink.new) result }
{
    let mut one = Buffer::new();
    let mut two = Buffer::new();
    let mut three = Buffer::new();
    let rows = one.format(rows).as_bytes();
    let shots = two.format(shots).as_bytes();
    let bad = three.format(bad).as_bytes();
    put_parts(
        sink,
        &[b"rows ", rows, b" shots ", shots, b" bad ", bad, b"\n"],
    )
}
