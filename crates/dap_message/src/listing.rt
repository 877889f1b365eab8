//! Iterators over the stack frames, scopes and variables that a message lists.
ghost use Rattle.std.specs.Prelude.{◌≡◌, true, map};
ghost use Rattle.dap_tree.specs.View.{view};
ghost use Rattle.dap_message.specs.Views.{are_frames, are_scopes, are_variables, frame_of};
ghost use Rattle.dap_message.specs.Views.{scope_of, variable_of};

use crate::views::{FrameView, ScopeView, VariableView, frame_of, scope_of, variable_of};
use dap_tree::Tree;

/// The frames of [`Message::frames`](crate::Message::frames), in the order of the message. Does not
/// allocate.
#[derive(Clone, Copy)]
pub struct Frames<'a> {
    elements: &'a [Tree],
    ghost shown: { are_frames (map view elements.now) ≡ true },
}

/// The scopes of [`Message::scopes`](crate::Message::scopes), in the order of the message. Does not
/// allocate.
#[derive(Clone, Copy)]
pub struct Scopes<'a> {
    elements: &'a [Tree],
    ghost shown: { are_scopes (map view elements.now) ≡ true },
}

/// The variables of [`Message::variables`](crate::Message::variables), in the order of the message.
/// Does not allocate.
#[derive(Clone, Copy)]
pub struct Variables<'a> {
    elements: &'a [Tree],
    ghost shown: { are_variables (map view elements.now) ≡ true },
}

impl<'a> Frames<'a> {
    ghost use Rattle.std.specs.Prelude.{filter_map};
    ghost use Rattle.dap_message.specs.ViewItems.{frames_left};

    pub(crate) fn new(elements: &'a [Tree]) -> Frames<'a>
        requires { are_frames (map view elements.now) ≡ true }
        ensures { frames_left result ≡ filter_map frame_of (map view elements.now) }
    {
        Frames { elements }
    }
}

impl<'a> Scopes<'a> {
    ghost use Rattle.std.specs.Prelude.{filter_map};
    ghost use Rattle.dap_message.specs.ViewItems.{scopes_left};

    pub(crate) fn new(elements: &'a [Tree]) -> Scopes<'a>
        requires { are_scopes (map view elements.now) ≡ true }
        ensures { scopes_left result ≡ filter_map scope_of (map view elements.now) }
    {
        Scopes { elements }
    }
}

impl<'a> Variables<'a> {
    ghost use Rattle.std.specs.Prelude.{filter_map};
    ghost use Rattle.dap_message.specs.ViewItems.{variables_left};

    pub(crate) fn new(elements: &'a [Tree]) -> Variables<'a>
        requires { are_variables (map view elements.now) ≡ true }
        ensures { variables_left result ≡ filter_map variable_of (map view elements.now) }
    {
        Variables { elements }
    }
}

impl<'a> Iterator for Frames<'a> {
    ghost use Rattle.std.specs.Iterator.{YieldsFirstBy, item_count};
    ghost use Rattle.dap_message.specs.ViewItems.{frame_shown, frames_left};

    type Item = FrameView<'a>;

    ghost next_gives = { YieldsFirstBy frame_shown frames_left };

    ghost remaining = { item_count frames_left };

    fn next(&mut self) -> Option<FrameView<'a>> {
        let (first, rest) = self.elements.split_first()?;
        self.elements = rest;
        frame_of(first)
    }
}

impl<'a> Iterator for Scopes<'a> {
    ghost use Rattle.std.specs.Iterator.{YieldsFirstBy, item_count};
    ghost use Rattle.dap_message.specs.ViewItems.{scope_shown, scopes_left};

    type Item = ScopeView<'a>;

    ghost next_gives = { YieldsFirstBy scope_shown scopes_left };

    ghost remaining = { item_count scopes_left };

    fn next(&mut self) -> Option<ScopeView<'a>> {
        let (first, rest) = self.elements.split_first()?;
        self.elements = rest;
        scope_of(first)
    }
}

impl<'a> Iterator for Variables<'a> {
    ghost use Rattle.std.specs.Iterator.{YieldsFirstBy, item_count};
    ghost use Rattle.dap_message.specs.ViewItems.{variable_shown, variables_left};

    type Item = VariableView<'a>;

    ghost next_gives = { YieldsFirstBy variable_shown variables_left };

    ghost remaining = { item_count variables_left };

    fn next(&mut self) -> Option<VariableView<'a>> {
        let (first, rest) = self.elements.split_first()?;
        self.elements = rest;
        variable_of(first)
    }
}
