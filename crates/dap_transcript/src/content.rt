//! Translates the lines of a record into the content of a message.
//!
//! No clause says what is read: the text of what is read is written again and compared.
ghost use Rattle.std.specs.Prelude.{◌≡◌, true, IfErr};
ghost use Rattle.dap_transcript.specs.ReadErrors.{is_of_reading};

use crate::fault::TranscriptCause;
use crate::names::names_head;
use crate::tokens::{Numbered, characters, is_token, margin_of, split_token};
use dap_flat::{Node, write_flat};
use dap_profile::Kind;
use std::alloc::{AllocError, Global};

/// The indentation of the members of a message.
const MARGIN: usize = 2;

/// The number of members that can be omitted.
const SLOTS: usize = 5;

/// A list or an object that is not closed yet, with the indentation of its elements or members.
#[derive(Clone, Copy, Drop)]
struct Open {
    margin: usize,
    is_list: bool,
}

/// A value that starts at the next line, with the indentation that a list or an object has there.
#[derive(Clone, Copy, Drop)]
struct Pending {
    list: usize,
    object: Option<usize>,
}

/// The content of a record so far. It reuses its buffers for the next record.
#[derive(Drop)]
pub(crate) struct Content {
    json: Vec<u8>,
    open: Vec<Open>,
    pending: Option<Pending>,
    /// The first omitted member that is not written yet.
    slot: usize,
}

/// Returns the name of a member that can be omitted. The names are in byte order.
fn slot_name(kind: Kind, slot: usize) -> &'static [u8] {
    match (slot, kind) {
        (0, Kind::Event) => b"event",
        (0, _) => b"command",
        (1, _) => b"request_seq",
        (2, _) => b"seq",
        (3, _) => b"success",
        _ => b"type",
    }
}

/// Returns the name of a member of a message that is written under this name.
fn original_name(name: &[u8]) -> &[u8] {
    match name {
        [front @ .., b'_'] if names_head(name) => front,
        _ => name,
    }
}

fn push_number(alloc: Global, number: i64, out: &mut Vec<u8>) -> Result<(), AllocError> {
    let node = match u64::try_from(number) {
        Ok(number) => Node::Unsigned(number),
        Err(_) => Node::Negative(number),
    };
    let mut digits = Vec::new(alloc);
    write_flat(alloc, &[node], &mut digits)?;
    out.extend_from_slice(digits.as_slice())
}

impl Content {
    /// Creates an empty content. Does not allocate.
    pub(crate) fn new(alloc: Global) -> Content {
        Content {
            json: Vec::new(alloc),
            open: Vec::new(alloc),
            pending: None,
            slot: 0,
        }
    }

    /// Starts the content of the next record.
    pub(crate) fn start(&mut self) -> Result<(), AllocError> {
        self.json.clear();
        self.open.clear();
        self.pending = None;
        self.slot = 0;
        self.open_part(MARGIN, false)
    }

    /// Starts a list or an object.
    fn open_part(&mut self, margin: usize, is_list: bool) -> Result<(), AllocError> {
        self.json.push(if is_list { b'[' } else { b'{' })?;
        self.open.push(Open { margin, is_list })?;
        Ok(())
    }

    /// Separates the next element or member from those before it.
    fn push_comma(&mut self) -> Result<(), AllocError> {
        if !matches!(self.json.last(), Some(b'{' | b'[' | b',')) {
            self.json.push(b',')?;
        }
        Ok(())
    }

    /// Ends the lists and objects that cannot have the element or member at this indentation.
    fn close(&mut self, margin: usize, is_item: bool) -> Result<(), AllocError> {
        for _ in 0..self.open.len() {
            let Some(part) = self.open.pop() else {
                return Ok(());
            };
            let is_list = part.is_list && !is_item;
            if part.margin < margin || (part.margin == margin && !is_list) {
                self.open.push(part)?;
                return Ok(());
            }
            self.json.push(if part.is_list { b']' } else { b'}' })?;
        }
        Ok(())
    }

    /// Starts an element or a member at this indentation.
    fn start_part(&mut self, margin: usize, is_item: bool) -> Result<(), TranscriptCause>
        ensures { IfErr result (λ cause. is_of_reading cause ≡ true) }
    {
        if let Some(pending) = self.pending.take() {
            let fits = if is_item {
                pending.list == margin
            } else {
                pending.object == Some(margin)
            };
            if fits {
                self.open_part(margin, is_item)?;
                return Ok(());
            }
            self.json.extend_from_slice(b"null")?;
        }
        self.close(margin, is_item)?;
        match self.open.last() {
            Some(part) if part.margin == margin && part.is_list == is_item => {}
            _ => return Err(TranscriptCause::BadLine),
        }
        self.push_comma()?;
        Ok(())
    }

    /// Adds the member in a slot, if it can be omitted.
    fn push_slot(
        &mut self,
        alloc: Global,
        slot: usize,
        head: &Numbered<'_>,
    ) -> Result<(), AllocError> {
        let kind = head.title.kind;
        let is_response = matches!(kind, Kind::Response);
        let absent = match slot {
            1 => head.request.is_none(),
            3 => !is_response,
            _ => false,
        };
        if absent {
            return Ok(());
        }
        self.push_comma()?;
        self.push_name(slot_name(kind, slot))?;
        match slot {
            0 => self.push_quoted(head.title.name),
            1 => push_number(alloc, head.request.unwrap_or(0), &mut self.json),
            2 => push_number(alloc, head.seq, &mut self.json),
            3 => self.json.extend_from_slice(b"true"),
            _ => self.push_quoted(kind.word().as_bytes()),
        }
    }

    fn push_quoted(&mut self, text: &[u8]) -> Result<(), AllocError> {
        self.json.push(b'"')?;
        self.json.extend_from_slice(text)?;
        self.json.push(b'"')?;
        Ok(())
    }

    fn push_name(&mut self, name: &[u8]) -> Result<(), AllocError> {
        self.push_quoted(name)?;
        self.json.push(b':')?;
        Ok(())
    }

    /// Adds the omitted members whose names come before this name. A member of this name is not
    /// omitted.
    fn push_omitted(
        &mut self,
        alloc: Global,
        name: &[u8],
        head: &Numbered<'_>,
    ) -> Result<(), AllocError> {
        for slot in self.slot..SLOTS {
            let order = slot_name(head.title.kind, slot).cmp(name);
            if order.is_gt() {
                return Ok(());
            }
            self.slot = slot + 1;
            if order.is_eq() {
                return Ok(());
            }
            self.push_slot(alloc, slot, head)?;
        }
        Ok(())
    }

    /// Takes a member: its name, and what follows the name on its line.
    fn take_member(
        &mut self,
        alloc: Global,
        margin: usize,
        name: &[u8],
        rest: &[u8],
        head: &Numbered<'_>,
    ) -> Result<(), TranscriptCause>
        ensures { IfErr result (λ cause. is_of_reading cause ≡ true) }
    {
        let mut name = characters(name);
        if self.open.len() == 1 {
            name = original_name(name);
            self.push_omitted(alloc, name, head)?;
            self.push_comma()?;
        }
        self.push_name(name)?;
        if rest == b":".as_slice() {
            self.pending = Some(Pending {
                list: margin,
                object: Some(margin.saturating_add(2)),
            });
            return Ok(());
        }
        let Some(scalar) = rest.strip_prefix(b": ") else {
            return Err(TranscriptCause::BadLine);
        };
        if !is_token(scalar) {
            return Err(TranscriptCause::BadLine);
        }
        self.json.extend_from_slice(scalar)?;
        Ok(())
    }

    /// Takes what follows `- ` on its line.
    fn take_item(
        &mut self,
        alloc: Global,
        margin: usize,
        item: &[u8],
        head: &Numbered<'_>,
    ) -> Result<(), TranscriptCause>
        ensures { IfErr result (λ cause. is_of_reading cause ≡ true) }
    {
        let Some((token, rest)) = split_token(item) else {
            return Err(TranscriptCause::BadLine);
        };
        if rest.is_empty() {
            self.json.extend_from_slice(token)?;
            return Ok(());
        }
        let inside = margin.saturating_add(2);
        self.open_part(inside, false)?;
        self.take_member(alloc, inside, token, rest, head)
    }

    /// Takes a line of the record after its head.
    pub(crate) fn take_line(
        &mut self,
        alloc: Global,
        line: &[u8],
        head: &Numbered<'_>,
    ) -> Result<(), TranscriptCause>
        ensures { IfErr result (λ cause. is_of_reading cause ≡ true) }
    {
        let margin = margin_of(line);
        let rest = line.get(margin..).unwrap_or(&[]);
        if let Some(item) = rest.strip_prefix(b"- ") {
            self.start_part(margin, true)?;
            return self.take_item(alloc, margin, item, head);
        }
        if rest == b"-".as_slice() {
            self.start_part(margin, true)?;
            self.pending = Some(Pending {
                list: margin.saturating_add(2),
                object: None,
            });
            return Ok(());
        }
        let Some((name, rest)) = split_token(rest) else {
            return Err(TranscriptCause::BadLine);
        };
        self.start_part(margin, false)?;
        self.take_member(alloc, margin, name, rest, head)
    }

    /// Ends the record, and returns its content.
    pub(crate) fn finish(
        &mut self,
        alloc: Global,
        head: &Numbered<'_>,
    ) -> Result<&[u8], AllocError> {
        if self.pending.take().is_some() {
            self.json.extend_from_slice(b"null")?;
        }
        self.close(MARGIN, false)?;
        for slot in self.slot..SLOTS {
            self.push_slot(alloc, slot, head)?;
        }
        self.json.push(b'}')?;
        Ok(self.json.as_slice())
    }
}
