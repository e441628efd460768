//! The text of a sample.

ghost use Rattle.std.specs.Prelude.{◌≡◌, ◌+◌, ◌*◌, ◌++◌, [], OnOk, Err};
ghost use Rattle.fb_ports.specs.Causes.{Appends, AppendsPrefix, CountsFault};
ghost use Rattle.fb_run.specs.Samples.{sample_head, sample_text, sizes_line, sums_line, work_line};
ghost use Rattle.fb_request.specs.PlainRequests.{plain_sampling};

use fb_plan::Plan;
use fb_ports::{Failed, Outbox, RowsFault, Sink, put_all, put_parts};
use fb_request::Sampling;
use itoa::Buffer;
use std::alloc::Global;

/// How many defects shots have, and what their corrections weigh.
#[derive(Clone, Copy, Debug, PartialEq, Eq)]
pub struct Sums {
    pub defects: u64,
    pub weight: i128,
}

/// Writes the text of a sample that was decoded by the plan. Where memory is wanting nothing is written; after a write
/// fault it may have been written in part.
pub fn write_sample<O: Sink>(
    alloc: Global,
    request: &Sampling,
    plan: &Plan,
    sums: Sums,
    out: &mut O,
) -> Result<(), RowsFault>
    ensures all { OnOk result (Appends (O.taken out.old) (O.taken out.new)
        (sample_text (plain_sampling request.now) plan.now sums.defects sums.weight)) }
    ensures prefix { result ≡ Err RowsFault.WriteFault → AppendsPrefix (O.taken out.old) (O.taken out.new)
        (sample_text (plain_sampling request.now) plan.now sums.defects sums.weight) }
    ensures nothing { result ≡ Err RowsFault.NoMemory → Appends (O.taken out.old) (O.taken out.new) [] }
    ensures writes { CountsFault (result ≡ Err RowsFault.WriteFault) (O.faults out.old) (O.faults out.new) }
{
    let mut outbox = Outbox::new(alloc);
    let Ok(()) = add_sample(&mut outbox, request, plan, sums) else {
        return Err(RowsFault::NoMemory);
    };
    let Ok(()) = outbox.flush(out) else {
        return Err(RowsFault::WriteFault);
    };
    Ok(())
}

/// Adds the text of a sample to the outbox.
#[tactic(auto, unfolding(crate::specs::Samples::sample_text))]
fn add_sample(
    outbox: &mut Outbox,
    request: &Sampling,
    plan: &Plan,
    sums: Sums,
) -> Result<(), Failed>
    ensures { OnOk result (outbox.new.text
        ≡ outbox.old.text ++ sample_text (plain_sampling request.now) plan.now sums.defects sums.weight) }
{
    let units = u64::from(plan.units()) * u64::from(request.shots);
    let fusions = u64::from(plan.nodes() - plan.units()) * u64::from(request.shots);
    add_head(outbox)?;
    add_sizes(outbox, request)?;
    add_sums(outbox, request.shots, sums)?;
    add_work(outbox, units, fusions)?;
    Ok(())
}

/// Adds the first line, `fusion-sample 1`.
#[tactic(auto, unfolding(crate::specs::Samples::sample_head))]
fn add_head(outbox: &mut Outbox) -> Result<(), Failed>
    ensures { OnOk result (outbox.new.text ≡ outbox.old.text ++ sample_head) }
{
    put_all(outbox, b"fusion-sample 1\n")
}

/// Adds the line of the lattice, its plan and the draws, `distance D rounds T units U rate R start X`.
#[tactic(auto, unfolding(crate::specs::Samples::sizes_line))]
fn add_sizes(outbox: &mut Outbox, request: &Sampling) -> Result<(), Failed>
    ensures { OnOk result (outbox.new.text ≡ outbox.old.text ++ sizes_line (plain_sampling request.now)) }
{
    let mut one = Buffer::new();
    let mut two = Buffer::new();
    let mut three = Buffer::new();
    let mut four = Buffer::new();
    let mut five = Buffer::new();
    let distance = one.format(request.distance).as_bytes();
    let rounds = two.format(request.rounds).as_bytes();
    let units = three.format(request.units).as_bytes();
    let rate = four.format(request.rate).as_bytes();
    let start = five.format(request.start).as_bytes();
    put_parts(
        outbox,
        &[
            b"distance ",
            distance,
            b" rounds ",
            rounds,
            b" units ",
            units,
            b" rate ",
            rate,
            b" start ",
            start,
            b"\n",
        ],
    )
}

/// Adds the line of the shots, their defects and the weight of their corrections, `shots N defects S weight W`.
#[tactic(auto, unfolding(crate::specs::Samples::sums_line))]
fn add_sums(outbox: &mut Outbox, shots: u32, sums: Sums) -> Result<(), Failed>
    ensures { OnOk result (outbox.new.text ≡ outbox.old.text ++ sums_line shots sums.defects sums.weight) }
{
    let mut one = Buffer::new();
    let mut two = Buffer::new();
    let mut three = Buffer::new();
    let shots = one.format(shots).as_bytes();
    let defects = two.format(sums.defects).as_bytes();
    let weight = three.format(sums.weight).as_bytes();
    put_parts(
        outbox,
        &[
            b"shots ",
            shots,
            b" defects ",
            defects,
            b" weight ",
            weight,
            b"\n",
        ],
    )
}

/// Adds the last line, of how many units and fusions were solved, `done units UN fusions FN`.
#[tactic(auto, unfolding(crate::specs::Samples::work_line))]
fn add_work(outbox: &mut Outbox, units: u64, fusions: u64) -> Result<(), Failed>
    ensures { OnOk result (outbox.new.text ≡ outbox.old.text ++ work_line units fusions) }
{
    let mut one = Buffer::new();
    let mut two = Buffer::new();
    let units = one.format(units).as_bytes();
    let fusions = two.format(fusions).as_bytes();
    put_parts(
        outbox,
        &[b"done units ", units, b" fusions ", fusions, b"\n"],
    )
}
