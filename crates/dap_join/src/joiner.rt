//! Joins the output of the records of a recording, one by one.
ghost use Rattle.std.specs.Prelude.{◌≡◌, [], ◌∷◌, IfOk, OnOk, option_map};
ghost use Rattle.dap_tree.specs.View.{view};
ghost use Rattle.dap_input.specs.Limits.{AreSound};
ghost use Rattle.dap_join.specs.Outputs.{IsPart, stopped};
ghost use Rattle.dap_normalise.specs.JudgingSteps.{payload_of};
ghost use Rattle.dap_join.specs.JoiningSteps.{Adds, AddsRecord, Ends, StartsEmpty, Writes};
ghost use Rattle.dap_join.specs.JoiningSteps.{part_if_read, part_shown};

use crate::event::{LentPart, may_be_event, part_if_read};
use crate::groups::{Group, add_output};
use crate::writing::Writing;
use dap_input::Limits;
use dap_mask::Joining;
use dap_recording::Record;
use dap_tree::{Scratch, Tree, TreeFault, read_tree_with};
use std::alloc::{AllocError, Global};
use std::collections::BTreeMap;

/// The output of the current segment, and the joined recording before it.
#[derive(Drop)]
pub(crate) struct Joiner {
    pub(crate) groups: BTreeMap<String, Group>,
    pub(crate) writing: Writing,
}

impl Joiner {
    pub(crate) fn new(alloc: Global) -> Joiner
        ensures { StartsEmpty result }
    {
        Joiner {
            groups: BTreeMap::new(alloc),
            writing: Writing::new(alloc),
        }
    }

    /// Writes the output of the current segment.
    pub(crate) fn end_segment(&mut self, alloc: Global, limits: Limits) -> Result<(), AllocError>
        requires { AreSound limits }
        ensures { OnOk result (Ends limits self.old self.new) }
    {
        self.writing.push_groups(alloc, &self.groups, limits)?;
        self.groups.clear();
        Ok(())
    }

    /// Adds a record that is not output.
    fn keep(&mut self, number: u64, whole: &Record, limits: Limits) -> Result<(), AllocError>
        requires { AreSound limits }
        ensures groups { self.new.groups ≡ self.old.groups }
        ensures writes { OnOk result (Writes limits self.old.writing self.new.writing
            (record { number = number; held = payload_of whole.now } ∷ [])) }
    {
        let content = whole.content.as_slice();
        self.writing.push(number, whole.side, content, limits)
    }

    /// Adds a `stopped` event, which may end a segment.
    fn stop(
        &mut self,
        alloc: Global,
        joining: Joining,
        number: u64,
        whole: &Record,
        limits: Limits,
    ) -> Result<(), AllocError>
        requires { AreSound limits }
        ensures { OnOk result (Adds limits joining self.old self.new (record {
          number = number;
          held = payload_of whole.now;
          part = stopped;
        })) }
    {
        match joining {
            Joining::Whole => self.keep(number, whole, limits),
            Joining::PerStop => {
                self.end_segment(alloc, limits)?;
                self.keep(number, whole, limits)
            }
        }
    }

    fn add_part(
        &mut self,
        alloc: Global,
        joining: Joining,
        number: u64,
        whole: &Record,
        part: LentPart<'_>,
        limits: Limits,
    ) -> Result<(), AllocError>
        requires { AreSound limits }
        ensures { OnOk result (Adds limits joining self.old self.new (record {
          number = number;
          held = payload_of whole.now;
          part = part_shown part.entry;
        })) }
    {
        match part {
            LentPart::Output(output) => add_output(alloc, &mut self.groups, number, output),
            LentPart::Stopped => self.stop(alloc, joining, number, whole, limits),
            LentPart::Other => self.keep(number, whole, limits),
        }
    }

    /// Adds the record with this number. A content that is not read as a document is not output.
    pub(crate) fn add(
        &mut self,
        alloc: Global,
        joining: Joining,
        number: u64,
        whole: &Record,
        limits: Limits,
        scratch: &mut Scratch,
    ) -> Result<(), AllocError>
        requires { AreSound limits }
        ensures { OnOk result (AddsRecord limits joining self.old self.new number
            (payload_of whole.now)) }
    {
        let tree = read_event(alloc, whole, scratch)?;
        let part = part_if_read(whole.side, &tree);
        self.add_part(alloc, joining, number, whole, part, limits)
    }
}

/// Returns the document of a record that may be an `output` or `stopped` event.
fn read_event(
    alloc: Global,
    whole: &Record,
    scratch: &mut Scratch,
) -> Result<Option<Tree>, AllocError>
    ensures { IfOk result (λ tree. IsPart (payload_of whole.now)
        (part_if_read whole.now.side (option_map view tree))) }
{
    let content = whole.content.as_slice();
    if !may_be_event(whole.side, content) {
        return Ok(None);
    }
    match read_tree_with(alloc, content, scratch) {
        Ok(tree) => Ok(Some(tree)),
        Err(TreeFault::Memory) => Err(AllocError),
        Err(TreeFault::Json) => Ok(None),
        Err(TreeFault::Fraction) => Ok(None),
    }
}
