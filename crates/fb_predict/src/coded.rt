//! Bits, written in a format.

ghost use Rattle.std.specs.Prelude.{◌≡◌, ◌+◌, ◌^◌, ◌<◌, ◌∷◌, ◌++◌, [], if◌then◌else◌, decimal, OnOk, OnErr};
ghost use Rattle.fb_ports.specs.Causes.{Appends, AppendsPrefix, HasCause};
ghost use Rattle.fb_shots_stim.specs.CodedShots.{coded_01, coded_b8, coded_dets, coded_hits, coded_r8, run_of, with_bit};
ghost use Rattle.fb_predict.specs.Codings.{coded};

use fb_ports::{Failed, Sink, put_all, put_parts};
use fb_request::Coding;
use itoa::Buffer;

/// Puts the text of some bits. After [`Failed`] the sink has taken a prefix of it.
pub fn write_coded<S: Sink>(sink: &mut S, to: Coding, bits: &[bool]) -> Result<(), Failed>
    ensures all { OnOk result (Appends (S.taken sink.old) (S.taken sink.new) (coded to bits.now)) }
    ensures prefix { OnErr result
        (AppendsPrefix (S.taken sink.old) (S.taken sink.new) (coded to bits.now)) }
    ensures cause { HasCause (S.faults sink.old) (S.faults sink.new) result }
{
    match to {
        Coding::Text01 => put_01(sink, bits),
        Coding::B8 => put_b8(sink, bits),
        Coding::Dets => put_dets(sink, bits),
        Coding::Hits => put_hits(sink, bits),
        Coding::R8 => put_r8(sink, bits),
    }
}

/// The byte of a bit.
fn digit(bit: bool) -> &'static [u8]
    ensures { result.now ≡ (if bit then 49 else 48) ∷ [] }
{
    if bit { b"1" } else { b"0" }
}

/// Puts a byte `0` or `1` for each bit, and a newline.
fn put_01<S: Sink>(sink: &mut S, bits: &[bool]) -> Result<(), Failed>
    ensures all { OnOk result (Appends (S.taken sink.old) (S.taken sink.new) (coded_01 bits.now)) }
    ensures prefix { OnErr result
        (AppendsPrefix (S.taken sink.old) (S.taken sink.new) (coded_01 bits.now)) }
    ensures cause { HasCause (S.faults sink.old) (S.faults sink.new) result }
{
    for bit in bits {
        let Ok(()) = put_all(sink, digit(*bit)) else {
            return Err(Failed);
        };
    }
    put_all(sink, b"\n")
}

/// A byte with its bit at a place, above those that it has.
fn with_bit(byte: u8, place: u32, bit: bool) -> u8
    requires place { place < 8 }
    requires byte { byte < 2 ^ place }
    ensures value { result ≡ with_bit byte place bit }
    ensures below { result < 2 ^ (place + 1) }
{
    if bit { byte + (1 << place) } else { byte }
}

/// Puts the bits in as few bytes as hold them, the least significant first.
fn put_b8<S: Sink>(sink: &mut S, bits: &[bool]) -> Result<(), Failed>
    ensures all { OnOk result (Appends (S.taken sink.old) (S.taken sink.new) (coded_b8 bits.now)) }
    ensures prefix { OnErr result
        (AppendsPrefix (S.taken sink.old) (S.taken sink.new) (coded_b8 bits.now)) }
    ensures cause { HasCause (S.faults sink.old) (S.faults sink.new) result }
{
    let mut byte = 0;
    let mut place = 0;
    for bit in bits {
        byte = with_bit(byte, place, *bit);
        if place == 7 {
            let Ok(()) = put_all(sink, &[byte]) else {
                return Err(Failed);
            };
            byte = 0;
            place = 0;
        } else {
            place += 1;
        }
    }
    if place == 0 {
        return Ok(());
    }
    put_all(sink, &[byte])
}

/// Puts a number behind a text.
fn put_number<S: Sink>(sink: &mut S, before: &[u8], number: u64) -> Result<(), Failed>
    ensures all { OnOk result (Appends (S.taken sink.old) (S.taken sink.new)
        (before.now ++ (decimal number ++ []))) }
    ensures prefix { OnErr result (AppendsPrefix (S.taken sink.old) (S.taken sink.new)
        (before.now ++ (decimal number ++ []))) }
    ensures cause { HasCause (S.faults sink.old) (S.faults sink.new) result }
{
    let mut buffer = Buffer::new();
    put_parts(sink, &[before, buffer.format(number).as_bytes()])
}

/// Puts the word `shot` and a word `L` for each bit that is set.
fn put_dets<S: Sink>(sink: &mut S, bits: &[bool]) -> Result<(), Failed>
    ensures all { OnOk result
        (Appends (S.taken sink.old) (S.taken sink.new) (coded_dets bits.now)) }
    ensures prefix { OnErr result
        (AppendsPrefix (S.taken sink.old) (S.taken sink.new) (coded_dets bits.now)) }
    ensures cause { HasCause (S.faults sink.old) (S.faults sink.new) result }
{
    let Ok(()) = put_all(sink, b"shot") else {
        return Err(Failed);
    };
    for (i, bit) in bits.iter().enumerate() {
        if *bit {
            let Ok(()) = put_number(sink, b" L", i as u64) else {
                return Err(Failed);
            };
        }
    }
    put_all(sink, b"\n")
}

/// What comes before a hit, behind others if there is any.
fn comma(any: bool) -> &'static [u8]
    ensures { result.now ≡ (if any then 44 ∷ [] else []) }
{
    if any { b"," } else { b"" }
}

/// Puts the places of the bits that are set, with a comma between each two.
fn put_hits<S: Sink>(sink: &mut S, bits: &[bool]) -> Result<(), Failed>
    ensures all { OnOk result
        (Appends (S.taken sink.old) (S.taken sink.new) (coded_hits bits.now)) }
    ensures prefix { OnErr result
        (AppendsPrefix (S.taken sink.old) (S.taken sink.new) (coded_hits bits.now)) }
    ensures cause { HasCause (S.faults sink.old) (S.faults sink.new) result }
{
    let mut any = false;
    for (i, bit) in bits.iter().enumerate() {
        if *bit {
            let Ok(()) = put_number(sink, comma(any), i as u64) else {
                return Err(Failed);
            };
            any = true;
        }
    }
    put_all(sink, b"\n")
}

/// Puts a run of zeros, before a bit that is set or the end.
fn put_run<S: Sink>(sink: &mut S, zeros: usize) -> Result<(), Failed>
    ensures all { OnOk result (Appends (S.taken sink.old) (S.taken sink.new) (run_of zeros)) }
    ensures prefix { OnErr result
        (AppendsPrefix (S.taken sink.old) (S.taken sink.new) (run_of zeros)) }
    ensures cause { HasCause (S.faults sink.old) (S.faults sink.new) result }
{
    let mut left = zeros;
    while left >= 255 {
        let Ok(()) = put_all(sink, &[255]) else {
            return Err(Failed);
        };
        left -= 255;
    }
    put_all(sink, &[left as u8])
}

/// Puts the runs of zeros before each bit that is set, and the last run.
fn put_r8<S: Sink>(sink: &mut S, bits: &[bool]) -> Result<(), Failed>
    ensures all { OnOk result (Appends (S.taken sink.old) (S.taken sink.new) (coded_r8 bits.now)) }
    ensures prefix { OnErr result
        (AppendsPrefix (S.taken sink.old) (S.taken sink.new) (coded_r8 bits.now)) }
    ensures cause { HasCause (S.faults sink.old) (S.faults sink.new) result }
{
    let mut zeros = 0;
    for bit in bits {
        if *bit {
            let Ok(()) = put_run(sink, zeros) else {
                return Err(Failed);
            };
            zeros = 0;
        } else {
            zeros += 1;
        }
    }
    put_run(sink, zeros)
}
