//! Masks recordings in memory, and reads the messages of the result, with names in the place of
//! their declared ids.
ghost use Rattle.std.specs.Prelude.{◌≡◌, ◌≤◌, ℕ, false, List, length, Some, IfErr, IfOk, IfSome};
ghost use Rattle.std.specs.Prelude.{OnOk, OnSome};
ghost use Rattle.dap_tree.specs.{Doc.Doc, Json.{IsRead, text_of}, View.view};
ghost use Rattle.dap_flat.specs.{Pieces.Represents, Reading.ReadsDocument};
ghost use Rattle.dap_message.specs.Message.{Sent};
ghost use Rattle.dap_mask.specs.KeptRules.{mask_of};
ghost use Rattle.dap_naming.specs.Flat.{FitsNodes, NamesNodes, NoneApply};
ghost use Rattle.dap_naming.specs.{Documents.ids_of, Known.{FitsLimit, NamesDoc, limit_of}};
ghost use Rattle.dap_naming.specs.Sessions.{rules_for};
ghost use Rattle.dap_stored.specs.Sessions.{messages_of};
ghost use Rattle.dap_input.specs.Limits.{AreSound};
ghost use Rattle.dap_normalise.specs.{Accepting.{IsAccepted, Payload}, JudgingSteps.payload_of};
ghost use Rattle.dap_normalise.specs.{NormalSession.IsNormalSession, Normalising.RefusesBytes};
ghost use Rattle.dap_normalise.specs.RecordTexts.{FitRecords};
ghost use Rattle.dap_recording.specs.Recording.{recording_text};
ghost use Rattle.dap_rules.specs.Applying.{RefusesToMask};
ghost use Rattle.dap_rules.specs.MaskedSessions.{AddsIf, AddsNamed, AddsNamedIf, AddsRuled, Holds};
ghost use Rattle.dap_rules.specs.MaskedSessions.{IsBoundOf, IsLast, IsMaskedSession};
ghost use Rattle.dap_rules.specs.MaskedSessions.{Pushes, PushesIf};
ghost use Rattle.dap_rules.specs.MaskedSessions.{RepresentsMasked, RepresentsNamed, end_of};
ghost use Rattle.dap_rules.specs.NamingSteps.{HaveNumbered};

use bumpalo::Bump;
use dap_device::MemorySource;
use dap_flat::{Node, Unread, length_within};
use dap_flat_message::{FlatFault, type_nodes};
use dap_input::{Limits, Records, Refused};
use dap_mask::{MaskRules, read_masked, read_masked_flat, told_name};
use dap_message::{Kind, MessageFault, Side, typed};
use dap_naming::{ValueNumbers, name_flat, name_message};
use dap_normalise::{NormalSession, check_messages, count_record, normalise_messages};
use dap_recording::{Record, RecordReader};
use dap_rename::Mode;
use dap_stored::StoredSession;
use dap_tree::{Scratch, Tree, TreeFault, write_tree_to};
use std::alloc::{AllocError, Global};

/// The number of bytes per node that most contents have at least. It is an estimate, which only
/// affects how often the vector of nodes is reallocated.
const BYTES_A_NODE: usize = 8;

/// The messages of a masked recording, with names in the place of their declared ids, up to its
/// first record that is not a message.
#[derive(Drop)]
pub(crate) struct MaskedSession {
    pub(crate) messages: StoredSession,
    /// For each message, `false` only if no declaration applies to it.
    pub(crate) ruled: Vec<bool>,
    /// Why the next record is not a message, if there is one that is not.
    pub(crate) fault: Option<MessageFault>,
    /// The numbers of the declared ids of all records so far.
    pub(crate) numbers: ValueNumbers,
    /// An upper bound on the number of bytes of the text of all records so far, with names.
    pub(crate) named_bytes: u64,
}

impl MaskedSession {
    /// Adds the record of a document that the nodes represent, with the flag `ruled`. Returns
    /// `false` if it has to be typed as a tree.
    fn add_nodes(
        &mut self,
        alloc: Global,
        side: Side,
        ruled: bool,
        nodes: Vec<Node<'_>>,
    ) -> Result<bool, AllocError>
        requires { (bytes : List ℕ) × ReadsDocument bytes nodes.items }
        ensures { (bytes : List ℕ) → ReadsDocument bytes nodes.entry.items
            → IfOk result (AddsIf (side, bytes) ruled self.old self.new) }
    {
        if self.fault.is_some() {
            return Ok(true);
        }
        match type_nodes(side, nodes) {
            Ok(message) => {
                self.messages.push(alloc, &message)?;
                self.ruled.push(ruled)?;
            }
            Err(FlatFault::Message(fault)) => self.fault = Some(fault),
            Err(FlatFault::Unclear) => return Ok(false),
            Err(FlatFault::Memory) => return Err(AllocError),
        }
        Ok(true)
    }

    /// Adds the record of a document that the tree represents, with the flag `ruled`.
    fn add_tree(
        &mut self,
        alloc: Global,
        side: Side,
        ruled: bool,
        tree: Tree,
    ) -> Result<(), AllocError>
        requires { (bytes : List ℕ) × IsRead bytes (view tree) }
        ensures { (bytes : List ℕ) → IsRead bytes (view tree)
            → OnOk result (AddsRuled (side, bytes) ruled self.old self.new) }
    {
        if self.fault.is_some() {
            return Ok(());
        }
        match typed(alloc, side, tree) {
            Ok(message) => {
                self.messages.push_message(alloc, &message)?;
                self.ruled.push(ruled)?;
            }
            Err(MessageFault::Memory) => return Err(AllocError),
            Err(fault) => self.fault = Some(fault),
        }
        Ok(())
    }

    /// Replaces the declared ids of the masked record that the nodes represent by names, and adds
    /// the record. Its text has `content_len` bytes before this. Returns `false` if it has to be
    /// typed as a tree. The record is then not added.
    ///
    /// Returns `None` if an allocation failed, or if the declared ids cannot be named here: for
    /// example, if a declaration applies and some record so far is not a message.
    fn add_named_nodes<'a>(
        &mut self,
        alloc: Global,
        rules: &MaskRules,
        number: u64,
        side: Side,
        nodes: Vec<Node<'a>>,
        arena: &'a Bump,
        content_len: usize,
        limits: Limits,
    ) -> Option<bool>
        requires sound { AreSound limits }
        requires read { (bytes : List ℕ) × ReadsDocument bytes nodes.items }
        requires len { (d : Doc) → Represents nodes.items d → length (text_of d) ≡ content_len }
        requires named { (before : List Sent)
            × RepresentsNamed limits (mask_of rules.now).declared before self.old }
        ensures { (bytes : List ℕ) (d : Doc) → IsRead bytes d → Represents nodes.entry.items d
            → IfSome result (AddsNamedIf limits (mask_of rules.now).declared
            (record { side = side; doc = d }) self.old self.new) }
    {
        let mut nodes = nodes;
        let ruled = name_nodes(alloc, rules, &mut self.numbers, &mut nodes, arena)?;
        match self.add_nodes(alloc, side, ruled, nodes) {
            Ok(true) => {}
            Ok(false) if ruled => return None,
            Ok(false) => return Some(false),
            Err(_) => return None,
        }
        let counted_len = self.counted_length(ruled, content_len)?;
        let Ok(named_bytes) = count_record(number, counted_len, self.named_bytes, limits) else {
            return None;
        };
        self.named_bytes = named_bytes;
        Some(true)
    }

    /// Returns an upper bound on the length of the text, with names, of the record that was added
    /// last. If no declaration applies, the bound is `content_len`. Otherwise it is the length of
    /// the stored content, or `None` if some record is not a message. Does not allocate.
    fn counted_length(&self, ruled: bool, content_len: usize) -> Option<usize>
        ensures { (held : Payload) (d : Doc) → IsLast held self.now → IsRead held.1 d
            → (ruled ≡ false → length (text_of d) ≡ content_len)
            → IfSome result (IsBoundOf d) }
    {
        if !ruled {
            return Some(content_len);
        }
        if self.fault.is_some() {
            return None;
        }
        let place = self.messages.len().checked_sub(1)?;
        let last = self.messages.message(place)?;
        Some(last.content().len())
    }

    /// Does the same for the masked record that the tree represents, which it types as a tree.
    fn add_named_tree(
        &mut self,
        alloc: Global,
        rules: &MaskRules,
        number: u64,
        side: Side,
        tree: Tree,
        content_len: usize,
        limits: Limits,
    ) -> Option<()>
        requires sound { AreSound limits }
        requires read { (bytes : List ℕ) × IsRead bytes (view tree) }
        requires len { length (text_of (view tree)) ≡ content_len }
        requires named { (before : List Sent)
            × RepresentsNamed limits (mask_of rules.now).declared before self.old }
        ensures { OnSome result (AddsNamed limits (mask_of rules.now).declared
            (record { side = side; doc = view tree }) self.old self.new) }
    {
        let mut tree = tree;
        let named_len = name_tree(alloc, rules, &mut self.numbers, &mut tree, content_len)?;
        let Ok(named_bytes) = count_record(number, named_len, self.named_bytes, limits) else {
            return None;
        };
        let ruled = !rules.declared().is_empty();
        let Ok(()) = self.add_tree(alloc, side, ruled, tree) else {
            return None;
        };
        self.named_bytes = named_bytes;
        Some(())
    }

    /// Returns the error of the record with this number, which comes after the messages.
    fn end(&self, number: u64) -> Result<(), Refused>
        ensures { result ≡ end_of number self.now.fault }
    {
        match self.fault {
            Some(fault) => Err(Refused::Message(number, fault)),
            None => Ok(()),
        }
    }
}

/// Replaces the declared ids of masked nodes by names. Returns whether a declaration applies to the
/// nodes.
///
/// Returns `None` if an allocation failed, or if the declared ids cannot be named here.
fn name_nodes<'a>(
    alloc: Global,
    rules: &MaskRules,
    numbers: &mut ValueNumbers,
    nodes: &mut [Node<'a>],
    arena: &'a Bump,
) -> Option<bool>
    ensures names { OnSome result
        (NamesNodes numbers.old numbers.new (mask_of rules.now).declared nodes.old nodes.new) }
    ensures few { OnSome result
        (FitsNodes numbers.old (mask_of rules.now).declared nodes.old) }
    ensures limit { limit_of numbers.new ≡ limit_of numbers.old }
    ensures applies { result ≡ Some false → NoneApply (mask_of rules.now).declared nodes.old }
{
    let declared = rules.declared();
    if declared.is_empty() {
        return Some(false);
    }
    match name_flat(alloc, numbers, declared, nodes, arena) {
        Ok(ruled) => Some(ruled),
        Err(_) => None,
    }
}

/// Replaces the declared ids of a masked tree by names. Its text has `content_len` bytes before
/// this. Returns the new length of its text.
///
/// Returns `None` if an allocation failed, or if the declared ids cannot be named here.
fn name_tree(
    alloc: Global,
    rules: &MaskRules,
    numbers: &mut ValueNumbers,
    tree: &mut Tree,
    content_len: usize,
) -> Option<usize>
    requires numbered { HaveNumbered (mask_of rules.now).declared numbers.old }
    requires read { (bytes : List ℕ) × IsRead bytes (view tree.old) }
    requires len { length (text_of (view tree.old)) ≡ content_len }
    ensures names { OnSome result (NamesDoc numbers.old numbers.new
        (rules_for (mask_of rules.now).declared (view tree.old)) (view tree.old)
        (view tree.new)) }
    ensures few { OnSome result (FitsLimit numbers.old
        (ids_of (rules_for (mask_of rules.now).declared (view tree.old)) (view tree.old))) }
    ensures limit { limit_of numbers.new ≡ limit_of numbers.old }
    ensures len { IfSome result (λ len. length (text_of (view tree.new)) ≡ len) }
{
    let declared = rules.declared();
    if declared.is_empty() {
        return Some(content_len);
    }
    let Ok(()) = name_message(alloc, numbers, declared, tree) else {
        return None;
    };
    let mut text = Vec::new(alloc);
    let Ok(()) = write_tree_to(alloc, tree, &mut text) else {
        return None;
    };
    Some(text.len())
}

/// Returns whether the nodes may be the response to `initialize`, whose absent capabilities are
/// filled in. So it has to be typed as a tree, and its ids must not be named in its nodes before.
fn may_be_filled_in(nodes: &[Node<'_>]) -> bool {
    match told_name(nodes, Kind::Response) {
        Ok(Some(name)) => name == "initialize",
        _ => false,
    }
}

/// Masks the record with this number, replaces its declared ids by names, and adds it to a session.
/// The masked text has `written` bytes before this. Returns its new length, or `None` for a record
/// that has to be masked and typed as a tree.
///
/// # Errors
///
/// - The error of masking the record.
/// - `Memory`: an allocation failed, or the declared ids cannot be named here.
fn push_flat(
    alloc: Global,
    rules: &MaskRules,
    number: u64,
    whole: &Record,
    written: u64,
    limits: Limits,
    scratch: &mut Scratch,
    session: &mut MaskedSession,
) -> Result<Option<u64>, Refused>
    requires sound { AreSound limits }
    requires short { written ≤ limits.input }
    requires represents { (messages : List Sent)
        × RepresentsMasked limits (mask_of rules.now) messages written session.old }
    ensures { (messages : List Sent)
        → RepresentsMasked limits (mask_of rules.now) messages written session.old
        → PushesIf limits (mask_of rules.now) messages (payload_of whole.now) number written
        session.new result }
{
    let content = whole.content.as_slice();
    let arena = Bump::new(alloc);
    let Ok(room) = Vec::with_capacity(alloc, content.len() / BYTES_A_NODE + 8) else {
        return Err(Refused::Memory);
    };
    let nodes = match read_masked_flat(content, rules, scratch, &arena, room) {
        Ok(Some(nodes)) => nodes,
        Ok(None) => return Ok(Some(written)),
        Err(Unread::Unclear) => return Ok(None),
        Err(Unread::Memory) => return Err(Refused::Memory),
    };
    let Some(content_len) = length_within(&nodes, &[], limits.frame.content) else {
        return Err(Refused::Grew(number));
    };
    let after = count_record(number, content_len, written, limits)?;
    if !rules.declared().is_empty() && may_be_filled_in(&nodes) {
        return Ok(None);
    }
    match session.add_named_nodes(
        alloc,
        rules,
        number,
        whole.side,
        nodes,
        &arena,
        content_len,
        limits,
    ) {
        Some(true) => Ok(Some(after)),
        Some(false) => Ok(None),
        None => Err(Refused::Memory),
    }
}

/// Does the same for any record, with the same errors.
fn push_tree(
    alloc: Global,
    rules: &MaskRules,
    number: u64,
    whole: &Record,
    written: u64,
    limits: Limits,
    scratch: &mut Scratch,
    session: &mut MaskedSession,
) -> Result<u64, Refused>
    requires sound { AreSound limits }
    requires short { written ≤ limits.input }
    requires represents { (messages : List Sent)
        × RepresentsMasked limits (mask_of rules.now) messages written session.old }
    ensures { (messages : List Sent)
        → RepresentsMasked limits (mask_of rules.now) messages written session.old
        → Pushes limits (mask_of rules.now) messages (payload_of whole.now) number session.new
        result }
{
    let tree = match read_masked(alloc, whole.content.as_slice(), rules, scratch) {
        Ok(Some(tree)) => tree,
        Ok(None) => return Ok(written),
        Err(TreeFault::Json) => return Err(Refused::Json(number)),
        Err(TreeFault::Fraction) => return Err(Refused::Fraction(number)),
        Err(TreeFault::Memory) => return Err(Refused::Memory),
    };
    let mut text = Vec::new(alloc);
    let Ok(()) = write_tree_to(alloc, &tree, &mut text) else {
        return Err(Refused::Memory);
    };
    let content_len = text.len();
    let after = count_record(number, content_len, written, limits)?;
    match session.add_named_tree(alloc, rules, number, whole.side, tree, content_len, limits) {
        Some(()) => Ok(after),
        None => Err(Refused::Memory),
    }
}

/// Returns the messages of a masked recording, with names in the place of their declared ids.
///
/// # Errors
///
/// The first error of the recording, or `Memory`: an allocation failed, or the declared ids cannot
/// be named here. Records are numbered from 1 in the recording.
pub(crate) fn read_masked_session(
    alloc: Global,
    rules: &MaskRules,
    recording: &[u8],
    limits: Limits,
) -> Result<MaskedSession, Refused>
    requires limits { AreSound limits }
    ensures ok { IfOk result (IsMaskedSession limits (mask_of rules.now) recording.now) }
    ensures err { IfErr result (RefusesToMask limits (mask_of rules.now) recording.now) }
{
    let frames = RecordReader::new(alloc, limits.frame);
    let Ok(mut records) = Records::new(alloc, frames, limits.input) else {
        return Err(Refused::Memory);
    };
    let mut reader = MemorySource::new(recording);
    let mut scratch = Scratch::new(alloc);
    let mut session = MaskedSession {
        messages: StoredSession::new(alloc),
        ruled: Vec::new(alloc),
        fault: None,
        numbers: ValueNumbers::new(alloc, limits.ids as u64),
        named_bytes: 0,
    };
    let mut written = 0;
    loop {
        let number = records.number();
        let Some(whole) = records.next(&mut reader)? else {
            return Ok(session);
        };
        written = push_masked(
            alloc,
            rules,
            number,
            &whole,
            written,
            limits,
            &mut scratch,
            &mut session,
        )?;
        records.recycle(whole);
    }
}

/// Masks a record, names its ids and adds it, as [`push_flat`] does.
fn push_masked(
    alloc: Global,
    rules: &MaskRules,
    number: u64,
    whole: &Record,
    written: u64,
    limits: Limits,
    scratch: &mut Scratch,
    session: &mut MaskedSession,
) -> Result<u64, Refused>
    requires sound { AreSound limits }
    requires short { written ≤ limits.input }
    requires represents { (messages : List Sent)
        × RepresentsMasked limits (mask_of rules.now) messages written session.old }
    ensures { (messages : List Sent)
        → RepresentsMasked limits (mask_of rules.now) messages written session.old
        → Pushes limits (mask_of rules.now) messages (payload_of whole.now) number session.new
        result }
{
    match push_flat(
        alloc, rules, number, whole, written, limits, scratch, session,
    )? {
        Some(after) => Ok(after),
        None => push_tree(
            alloc, rules, number, whole, written, limits, scratch, session,
        ),
    }
}

/// Checks the records that a session contains, in the same way as
/// [`check`](dap_normalise::check).
///
/// # Errors
///
/// The first error of the records, or `Memory`. Records are numbered from 1 in the masked
/// recording.
pub(crate) fn check_masked(
    alloc: Global,
    session: &MaskedSession,
    limits: Limits,
    mode: Mode,
) -> Result<(), Refused>
    requires limits { AreSound limits }
    ensures ok { (records : List Payload) → FitRecords limits records → Holds session.now records
        → IfOk result (λ done. IsAccepted limits mode (recording_text records)
        (messages_of session.now.messages)) }
    ensures err { (records : List Payload) → FitRecords limits records → Holds session.now records
        → IfErr result (RefusesBytes limits mode (recording_text records)) }
{
    let Ok(messages) = session.messages.views(alloc) else {
        return Err(Refused::Memory);
    };
    let next = messages.len() as u64 + 1;
    check_messages(alloc, messages, limits, mode)?;
    session.end(next)
}

/// Returns the normal form of the records that a session contains, and its counts, as
/// [`normalise_session`](dap_normalise::normalise_session) does.
///
/// # Errors
///
/// Those of [`check_masked`].
pub(crate) fn normalise_masked(
    alloc: Global,
    session: &MaskedSession,
    limits: Limits,
    mode: Mode,
) -> Result<NormalSession, Refused>
    requires limits { AreSound limits }
    ensures ok { (records : List Payload) → FitRecords limits records → Holds session.now records
        → IfOk result (IsNormalSession limits mode (recording_text records)) }
    ensures err { (records : List Payload) → FitRecords limits records → Holds session.now records
        → IfErr result (RefusesBytes limits mode (recording_text records)) }
{
    let Ok(messages) = session.messages.views(alloc) else {
        return Err(Refused::Memory);
    };
    let next = messages.len() as u64 + 1;
    let normal = normalise_messages(alloc, messages, limits, mode)?;
    session.end(next)?;
    Ok(normal)
}
