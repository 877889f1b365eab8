//! Writes the records of a joined recording.
ghost use Rattle.std.specs.Prelude.{◌≡◌, [], ◌∷◌, ◌++◌, None, Some, IfOk, OnOk, map};
ghost use Rattle.dap_tree.specs.Json.{text_of};
ghost use Rattle.dap_flat.specs.Pieces.{Represents};
ghost use Rattle.dap_input.specs.Limits.{AreSound};
ghost use Rattle.dap_join.specs.Joined.{event_of, joined_output};
ghost use Rattle.dap_join.specs.JoiningSteps.{IsWritten, Writes, group_shown, groups_shown};

use crate::groups::Group;
use dap_flat::{Node, write_flat};
use dap_frame::FrameFault;
use dap_input::Limits;
use dap_recording::write_record;
use dap_tree::Side;
use std::alloc::{AllocError, Global};
use std::collections::BTreeMap;

/// A joined recording while it is written.
#[derive(Drop)]
pub(crate) struct Writing {
    pub(crate) recording: Vec<u8>,
    pub(crate) numbers: Vec<u64>,
    /// The number of the first record with which a limit is exceeded. Nothing is written after it.
    pub(crate) grown: Option<u64>,
}

impl Writing {
    pub(crate) fn new(alloc: Global) -> Writing
        ensures recording { result.recording.items ≡ [] }
        ensures numbers { result.numbers.items ≡ [] }
        ensures grown { result.grown ≡ None }
    {
        Writing {
            recording: Vec::new(alloc),
            numbers: Vec::new(alloc),
            grown: None,
        }
    }

    /// Writes the record of a content, unless a limit is exceeded.
    pub(crate) fn push(
        &mut self,
        number: u64,
        side: Side,
        content: &[u8],
        limits: Limits,
    ) -> Result<(), AllocError>
        requires { AreSound limits }
        ensures { OnOk result (Writes limits self.old self.new
            (record { number = number; held = (side, content.now) } ∷ [])) }
    {
        if self.grown.is_some() {
            return Ok(());
        }
        match write_record(&mut self.recording, side, content, limits.frame) {
            Ok(()) => {}
            Err(FrameFault::ContentTooLong) => {
                self.grown = Some(number);
                return Ok(());
            }
            Err(_) => return Err(AllocError),
        }
        if limits.input < self.recording.len() as u64 {
            self.grown = Some(number);
            return Ok(());
        }
        self.numbers.push(number)?;
        Ok(())
    }

    /// Writes the joined output of each group.
    pub(crate) fn push_groups(
        &mut self,
        alloc: Global,
        groups: &BTreeMap<String, Group>,
        limits: Limits,
    ) -> Result<(), AllocError>
        requires { AreSound limits }
        ensures { OnOk result (Writes limits self.old self.new
            (map joined_output (groups_shown groups.now))) }
    {
        let mut content = Vec::new(alloc);
        for (category, group) in groups.iter() {
            content.clear();
            write_event(alloc, category, group, &mut content)?;
            self.push(group.number, Side::Adapter, &content, limits)?;
        }
        Ok(())
    }
}

/// Appends the content of the event that has the joined output of a category.
fn write_event(
    alloc: Global,
    category: &String,
    group: &Group,
    out: &mut Vec<u8>,
) -> Result<(), AllocError>
    ensures { OnOk result (out.new.items
        ≡ out.old.items ++ text_of (event_of (group_shown (category.now, group.now)))) }
{
    let category = category.as_str();
    let text = group.text.as_str();
    match group.seq {
        Some(seq) => write_flat(alloc, &nodes_with_seq(category, text, seq), out),
        None => write_flat(alloc, &nodes_without_seq(category, text), out),
    }
}

fn nodes_without_seq<'a>(category: &'a str, text: &'a str) -> [Node<'a>; 13]
    ensures { Represents result (event_of (record {
      number = 0;
      seq = None;
      category = category.now;
      text = text.now;
    })) }
{
    [
        Node::Object(11),
        Node::Name("body"),
        Node::Object(4),
        Node::Name("category"),
        Node::Text(category),
        Node::Name("output"),
        Node::Text(text),
        Node::EndObject,
        Node::Name("event"),
        Node::Text("output"),
        Node::Name("type"),
        Node::Text("event"),
        Node::EndObject,
    ]
}

/// Does the same with a `seq`, which may have any sign.
fn nodes_with_seq<'a>(category: &'a str, text: &'a str, seq: i64) -> [Node<'a>; 15]
    ensures { Represents result (event_of (record {
      number = 0;
      seq = Some seq;
      category = category.now;
      text = text.now;
    })) }
{
    [
        Node::Object(13),
        Node::Name("body"),
        Node::Object(4),
        Node::Name("category"),
        Node::Text(category),
        Node::Name("output"),
        Node::Text(text),
        Node::EndObject,
        Node::Name("event"),
        Node::Text("output"),
        Node::Name("seq"),
        Node::Negative(seq),
        Node::Name("type"),
        Node::Text("event"),
        Node::EndObject,
    ]
}
