//! Joins the output of a recording in memory.
ghost use Rattle.std.specs.Prelude.{IfErr, IfOk, OnOk};
ghost use Rattle.dap_input.specs.Limits.{AreSound};
ghost use Rattle.dap_join.specs.Joining.{Joins, RefusesToJoin};
ghost use Rattle.dap_join.specs.JoiningSteps.{HasRead, RefusesToSplit, StartsEmpty};

use crate::joiner::Joiner;
use dap_device::MemorySource;
use dap_input::{Limits, Records, Refused};
use dap_mask::Joining;
use dap_recording::RecordReader;
use dap_tree::Scratch;
use std::alloc::Global;

/// A recording with its output joined.
#[derive(Drop)]
pub struct Joined {
    /// The text of the recording.
    pub recording: Vec<u8>,
    /// For each record, the number of the record of the input that it is, or of the first one if
    /// several are joined.
    pub numbers: Vec<u64>,
}

/// Joins the output of each record of a recording that has not been read yet.
fn join_records(
    alloc: Global,
    joining: Joining,
    recording: &[u8],
    limits: Limits,
    joiner: &mut Joiner,
) -> Result<(), Refused>
    requires limits { AreSound limits }
    requires empty { StartsEmpty joiner.old }
    ensures ok { OnOk result (HasRead limits joining recording.now joiner.new) }
    ensures err { IfErr result (RefusesToSplit limits recording.now) }
{
    let frames = RecordReader::new(alloc, limits.frame);
    let Ok(mut records) = Records::new(alloc, frames, limits.input) else {
        return Err(Refused::Memory);
    };
    let mut reader = MemorySource::new(recording);
    let mut scratch = Scratch::new(alloc);
    'records: loop {
        let number = records.number();
        let Some(whole) = records.next(&mut reader)? else {
            return Ok(());
        };
        let Ok(()) = joiner.add(alloc, joining, number, &whole, limits, &mut scratch) else {
            return Err(Refused::Memory);
        };
        records.recycle(whole);
    }
}

/// Returns a recording with its output joined: in place of the `output` events of each category,
/// one event with all of their text.
///
/// With [`Joining::PerStop`], output is joined between two `stopped` events. The joined output
/// comes after the other records of its segment, in the byte order of the categories, each with the
/// `seq` of its first event. The other records keep their order and their bytes. An `output` event
/// stays as it is if its `body.output` or `body.category` is not a string, if it has a
/// `variablesReference` other than 0, or if its `seq` is not an integer of 64 bits.
///
/// # Errors
///
/// - `InputTooLong`, `Record`: the first error of the records.
/// - `Grew`: the joined recording exceeds a limit with this record. It has the number of the record
///   of the input.
/// - `Memory`: an allocation failed.
pub fn join(
    alloc: Global,
    joining: Joining,
    recording: &[u8],
    limits: Limits,
) -> Result<Joined, Refused>
    requires limits { AreSound limits }
    ensures ok { IfOk result
        (λ joined. Joins limits joining recording.now joined.recording.items joined.numbers.items) }
    ensures err { IfErr result (RefusesToJoin limits joining recording.now) }
{
    let mut joiner = Joiner::new(alloc);
    join_records(alloc, joining, recording, limits, &mut joiner)?;
    let Ok(()) = joiner.end_segment(alloc, limits) else {
        return Err(Refused::Memory);
    };
    match joiner.writing.grown {
        Some(number) => Err(Refused::Grew(number)),
        None => Ok(Joined {
            recording: joiner.writing.recording,
            numbers: joiner.writing.numbers,
        }),
    }
}
