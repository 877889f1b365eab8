//! Messages: their parts, their views, and replacing their ids.
ghost use Rattle.std.specs.Prelude.{◌≡◌, ◌++◌, length, true, Some, is_some, option_map, IfOk};
ghost use Rattle.std.specs.Prelude.{IfErr, OnOk, OnErr, string_bytes};
ghost use Rattle.dap_tree.specs.Doc.{is_sound, is_ordered, get};
ghost use Rattle.dap_tree.specs.Ids.{ids, with_ids, without_ids, skeleton};
ghost use Rattle.dap_tree.specs.Json.{text_of, IsRead};
ghost use Rattle.dap_tree.specs.View.{view};
ghost use Rattle.dap_profile.specs.declared.profile.Kind.{Kind};
ghost use Rattle.dap_message.specs.Rows.{is_of_kind};
ghost use Rattle.dap_message.specs.Envelope.{has_envelope, id_number, boolean_value, text_value};
ghost use Rattle.dap_message.specs.Envelope.{kind_of, seq_of, request_seq_of, success_of, name_of};
ghost use Rattle.dap_message.specs.Numbers.{is_proper, are_proper, renumbered};
ghost use Rattle.dap_message.specs.Views.{shows_all};
ghost use Rattle.dap_message.specs.declared.fault.MessageFault.{MessageFault};

use crate::fault::MessageFault;
use crate::ids::IdList;
use crate::listing::{Frames, Scopes, Variables};
use crate::views::listed;
use dap_profile::Kind;
use dap_tree::{Side, Tree, write_tree, write_tree_to};
use std::alloc::Global;

/// A message of the protocol: the side that sent it, and its tree with the ids marked.
///
/// Its tree is sound, no id is a variables reference of 0, and it has the members that every
/// message of its kind has. Each frame, scope and variable that it lists has the members that the
/// views contain. The laws in [`crate::laws`] state that it is typed again as itself, even if its
/// ids have other numbers.
#[derive(Drop)]
pub struct Message {
    side: Side,
    /// The tree determines the kind. It is stored here to read it only once.
    kind: Kind,
    tree: Tree,
    ghost kind_same: { kind ≡ kind_of (view tree) },
    ghost kind_told: { is_of_kind kind (view tree) ≡ true },
    ghost sound: { is_sound (view tree) ≡ true },
    ghost proper: { is_proper (view tree) ≡ true },
    ghost enveloped: { has_envelope (view tree) ≡ true },
    ghost shown: { shows_all (view tree) ≡ true },
}

impl Message {
    ghost use Rattle.std.specs.Prelude.{map};
    ghost use Rattle.dap_message.specs.Message.{side_of, doc_of, list_of_ids, IsTypedBack};
    ghost use Rattle.dap_message.specs.Message.{IsRenumberedBack};
    ghost use Rattle.dap_message.specs.ViewItems.{frames_left, scopes_left, variables_left};
    ghost use Rattle.dap_message.specs.Views.{frame_of, frames_of, listed_frames, scope_of};
    ghost use Rattle.dap_message.specs.Views.{scopes_of, listed_scopes, variable_of, variables_of};
    ghost use Rattle.dap_message.specs.Views.{listed_variables};

    pub(crate) fn new(side: Side, kind: Kind, tree: Tree) -> Message
        requires reported { is_of_kind kind (view tree) ≡ true }
        requires sound { is_sound (view tree) ≡ true }
        requires proper { is_proper (view tree) ≡ true }
        requires enveloped { has_envelope (view tree) ≡ true }
        requires shown { shows_all (view tree) ≡ true }
        ensures side { side_of result ≡ side }
        ensures doc { doc_of result ≡ view tree }
    {
        Message { side, kind, tree }
    }

    /// Returns the side that sent the message.
    pub fn side(&self) -> Side
        ensures { result ≡ side_of self.now }
    {
        self.side
    }

    /// Returns the kind of the message.
    pub fn kind(&self) -> Kind
        ensures same { result ≡ kind_of (doc_of self.now) }
        ensures reported { is_of_kind result (doc_of self.now) ≡ true }
    {
        self.kind
    }

    /// Returns the command of a request or response, or the name of an event.
    pub fn name(&self) -> &str
        ensures { name_of (doc_of self.now) ≡ Some result.now }
    {
        let name = match self.kind {
            Kind::Request | Kind::Response => text_at(&self.tree, "command"),
            Kind::Event => text_at(&self.tree, "event"),
        };
        match name {
            Some(name) => name,
            None => unreachable!(),
        }
    }

    /// Returns the sequence number of the message itself.
    pub fn seq(&self) -> i64
        ensures { seq_of (doc_of self.now) ≡ Some result }
    {
        match number_at(&self.tree, "seq") {
            Some(number) => number,
            None => unreachable!(),
        }
    }

    /// Returns the sequence number of the request that a response answers, or `None` if the message
    /// is not a response.
    pub fn request_seq(&self) -> Option<i64>
        ensures same { result ≡ request_seq_of (doc_of self.now) }
        ensures of_responses { is_some result ≡ is_of_kind Kind.Response (doc_of self.now) }
    {
        match self.kind {
            Kind::Response => number_at(&self.tree, "request_seq"),
            Kind::Request | Kind::Event => None,
        }
    }

    /// Returns whether a response reports success, or `None` if the message is not a response.
    pub fn success(&self) -> Option<bool>
        ensures same { result ≡ success_of (doc_of self.now) }
        ensures of_responses { is_some result ≡ is_of_kind Kind.Response (doc_of self.now) }
    {
        match self.kind {
            Kind::Response => boolean_at(&self.tree, "success"),
            Kind::Request | Kind::Event => None,
        }
    }

    /// Returns the tree of the complete message, with its ids marked.
    pub fn tree(&self) -> &Tree
        ensures { view result.now ≡ doc_of self.now }
    {
        let Message { tree, .. } = self;
        tree
    }

    /// Returns the tree of the message, with its ids marked. Does not allocate.
    pub(crate) fn into_tree(self) -> Tree
        ensures doc { view result ≡ doc_of self }
        ensures sound { is_sound (view result) ≡ true }
    {
        let Message {
            side: _,
            kind: _,
            tree,
        } = self;
        tree
    }

    /// Returns the canonical content: JSON without spaces, with members in the byte order of their
    /// names, and with each id as its number.
    ///
    /// # Errors
    ///
    /// - `Memory`: an allocation failed.
    pub fn content(&self, alloc: Global) -> Result<String, MessageFault>
        ensures text { IfOk result (λ s. string_bytes s ≡ text_of (doc_of self.now)) }
        ensures reads_back { IfOk result
            (λ s. IsRead (string_bytes s) (without_ids (doc_of self.now))) }

        // Reading and typing the string again yields this message: as it was typed, or with other
        // numbers at its ids.
        ensures typed_again { IfOk result
            (λ s. IsTypedBack (side_of self.now) (doc_of self.now) (string_bytes s)) }
        ensures renumbered_again { IfOk result
            (λ s. IsRenumberedBack (side_of self.now) (doc_of self.now) (string_bytes s)) }
        ensures memory { IfErr result (λ f. f ≡ MessageFault.Memory) }
    {
        match write_tree(alloc, &self.tree) {
            Ok(text) => Ok(text),
            Err(_) => Err(MessageFault::Memory),
        }
    }

    /// Appends the canonical content, the string that [`content`](Message::content) returns.
    ///
    /// # Errors
    ///
    /// - `Memory`: an allocation failed. The contents of `out` are unchanged; its capacity may have
    ///   grown.
    pub fn write_content_to(&self, alloc: Global, out: &mut Vec<u8>) -> Result<(), MessageFault>
        ensures text { OnOk result (out.new.items ≡ out.old.items ++ text_of (doc_of self.now)) }
        ensures reads_back { OnOk result
            (IsRead (text_of (doc_of self.now)) (without_ids (doc_of self.now))) }

        // The guarantees of `content` for its string.
        ensures typed_again { OnOk result
            (IsTypedBack (side_of self.now) (doc_of self.now) (text_of (doc_of self.now))) }
        ensures renumbered_again { OnOk result
            (IsRenumberedBack (side_of self.now) (doc_of self.now) (text_of (doc_of self.now))) }
        ensures memory { IfErr result (λ f. f ≡ MessageFault.Memory) }
        ensures err { OnErr result (out.new.items ≡ out.old.items) }
    {
        match write_tree_to(alloc, &self.tree, out) {
            Ok(()) => Ok(()),
            Err(_) => Err(MessageFault::Memory),
        }
    }

    /// Returns an equal message with its own memory.
    ///
    /// # Errors
    ///
    /// - `Memory`: an allocation failed.
    pub fn copy(&self, alloc: Global) -> Result<Message, MessageFault>
        ensures side { IfOk result (λ m. side_of m ≡ side_of self.now) }
        ensures doc { IfOk result (λ m. doc_of m ≡ doc_of self.now) }
        ensures memory { IfErr result (λ f. f ≡ MessageFault.Memory) }
    {
        let Message { side, kind, tree } = self;
        match tree.copy(alloc) {
            Ok(tree) => Ok(Message::new(*side, *kind, tree)),
            Err(_) => Err(MessageFault::Memory),
        }
    }

    /// Returns the stack frames that a successful response to `stackTrace` lists, and no frames for
    /// any other message. Does not allocate.
    pub fn frames(&self) -> Frames<'_>
        ensures same { frames_left result ≡ frames_of (doc_of self.now) }

        // Each element of the array is returned, in order.
        ensures every { map Some (frames_left result)
            ≡ map frame_of (listed_frames (doc_of self.now)) }
    {
        Frames::new(listed(&self.tree, "stackTrace", "stackFrames"))
    }

    /// Returns the scopes that a successful response to `scopes` lists, and no scopes for any other
    /// message. Does not allocate.
    pub fn scopes(&self) -> Scopes<'_>
        ensures same { scopes_left result ≡ scopes_of (doc_of self.now) }

        // Each element of the array is returned, in order.
        ensures every { map Some (scopes_left result)
            ≡ map scope_of (listed_scopes (doc_of self.now)) }
    {
        Scopes::new(listed(&self.tree, "scopes", "scopes"))
    }

    /// Returns the variables that a successful response to `variables` lists, and no variables for
    /// any other message. Does not allocate.
    pub fn variables(&self) -> Variables<'_>
        ensures same { variables_left result ≡ variables_of (doc_of self.now) }

        // Each element of the array is returned, in order.
        ensures every { map Some (variables_left result)
            ≡ map variable_of (listed_variables (doc_of self.now)) }
    {
        Variables::new(listed(&self.tree, "variables", "variables"))
    }

    /// Returns the ids in the order of the canonical content.
    ///
    /// # Errors
    ///
    /// - `Memory`: an allocation failed.
    pub fn ids(&self, alloc: Global) -> Result<IdList, MessageFault>
        ensures ok { IfOk result (λ l. list_of_ids l ≡ ids (doc_of self.now)) }

        // Therefore the ids are also in the order of their paths.
        ensures ordered { OnOk result (is_ordered (doc_of self.now) ≡ true) }
        ensures memory { IfErr result (λ f. f ≡ MessageFault.Memory) }
    {
        let mut found = Vec::new(alloc);
        match self.tree.add_ids(&mut found) {
            Ok(()) => Ok(IdList::new(found)),
            Err(_) => Err(MessageFault::Memory),
        }
    }

    /// Returns the message with the i-th id replaced by the i-th number, in the order of `ids`.
    /// Does not allocate.
    pub fn replace_ids(self, numbers: &[i64]) -> Message
        requires count { length numbers.now ≡ length (ids (doc_of self)) }

        // No variables reference becomes 0.
        requires proper { are_proper (renumbered (doc_of self) numbers.now) ≡ true }
        ensures side { side_of result ≡ side_of self }
        ensures ids { ids (doc_of result) ≡ renumbered (doc_of self) numbers.now }

        // Everything except the numbers is unchanged.
        ensures skeleton { skeleton (doc_of result) ≡ skeleton (doc_of self) }
        ensures doc { doc_of result ≡ with_ids (doc_of self) numbers.now }
    {
        let Message {
            side,
            kind,
            mut tree,
        } = self;
        tree.replace_ids(numbers);
        Message::new(side, kind, tree)
    }
}

fn number_at(tree: &Tree, name: &str) -> Option<i64>
    ensures { result ≡ id_number (get name.now (view tree.now)) }
{
    match tree.child(name) {
        Some(Tree::Id(_, number)) => Some(*number),
        _ => None,
    }
}

fn boolean_at(tree: &Tree, name: &str) -> Option<bool>
    ensures { result ≡ boolean_value (get name.now (view tree.now)) }
{
    match tree.child(name) {
        Some(Tree::Bool(value)) => Some(*value),
        _ => None,
    }
}

pub(crate) fn text_at<'a>(tree: &'a Tree, name: &str) -> Option<&'a str>
    ensures { option_map (λ s. s.now) result ≡ text_value (get name.now (view tree.now)) }
{
    match tree.child(name) {
        Some(Tree::Text(text)) => Some(text.as_str()),
        _ => None,
    }
}
