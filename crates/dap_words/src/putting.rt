//! Puts words in the place of texts in a message.
ghost use Rattle.std.specs.Prelude.{◌≡◌, ◌≢◌, ◌&&◌, cond, IfOk, IfErr, [], true, false};
ghost use Rattle.dap_tree.specs.View.{view, items_view, members_view};
ghost use Rattle.dap_words.specs.Words.{pairs_of};
ghost use Rattle.dap_words.specs.Kept.{pairs_in};
ghost use Rattle.dap_words.specs.Worded.{worded, items_worded, members_worded, worded_message};
ghost use Rattle.dap_words.specs.Worded.{names_its_kind};

use crate::word_list::Words;
use crate::words::{Word, with_words};
use dap_tree::Tree;
use std::alloc::{AllocError, Global};
use std::collections::BTreeMap;

/// Returns a message with words in the place of texts in every string, except in its `type`,
/// `command` and `event`. Without words, returns the message as it is and does not allocate.
///
/// # Errors
///
/// `AllocError`: an allocation failed. There are words.
pub fn put_words(alloc: Global, message: Tree, words: &Words) -> Result<Tree, AllocError>
    ensures worded { IfOk result
        (λ t. view t ≡ worded_message (pairs_in words.now) (view message)) }
    ensures memory { IfErr result (λ _. pairs_in words.now ≢ []) }
{
    if words.is_empty() {
        return Ok(message);
    }
    word_tree(alloc, message, words.list(), true)
}

fn names_its_kind(name: &str) -> bool
    ensures { result ≡ names_its_kind name.now }
{
    name == "type" || name == "command" || name == "event"
}

// `is_message` says whether the tree is a message, or only a part of one.
#[cycle(word_tree)]
fn word_tree(
    alloc: Global,
    tree: Tree,
    words: &[Word],
    is_message: bool,
) -> Result<Tree, AllocError>
    ensures { IfOk result (λ t. view t ≡ worded (pairs_of words.now) is_message (view tree)) }
{
    match tree {
        Tree::Null => Ok(Tree::Null),
        Tree::Bool(b) => Ok(Tree::Bool(b)),
        Tree::Whole(n) => Ok(Tree::Whole(n)),
        Tree::Text(text) => Ok(Tree::Text(with_words(alloc, text.as_str(), words)?)),
        Tree::List(items) => Ok(Tree::List(word_items(alloc, items, words)?)),
        Tree::Object(members) => {
            Ok(Tree::Object(word_members(alloc, members, words, is_message)?))
        }
        Tree::Id(sort, n) => Ok(Tree::Id(sort, n)),
    }
}

#[cycle(word_tree)]
fn word_items(alloc: Global, items: Vec<Tree>, words: &[Word]) -> Result<Vec<Tree>, AllocError>
    ensures { IfOk result
        (λ v. items_view v.items ≡ items_worded (pairs_of words.now) (items_view items.items)) }
{
    let mut worded = Vec::with_capacity(alloc, items.len())?;
    for item in items {
        let item = word_tree(alloc, item, words, false)?;
        worded.push(item)?;
    }
    Ok(worded)
}

#[cycle(word_tree)]
fn word_members(
    alloc: Global,
    members: BTreeMap<String, Tree>,
    words: &[Word],
    is_message: bool,
) -> Result<BTreeMap<String, Tree>, AllocError>
    ensures { IfOk result (λ m. members_view m.entries
        ≡ members_worded (pairs_of words.now) is_message (members_view members.entries)) }
{
    let mut worded = BTreeMap::new(alloc);
    for (name, member) in members {
        let member = word_member(alloc, name.as_str(), member, words, is_message)?;
        drop(worded.insert(name, member)?);
    }
    Ok(worded)
}

#[cycle(word_tree)]
fn word_member(
    alloc: Global,
    name: &str,
    member: Tree,
    words: &[Word],
    is_message: bool,
) -> Result<Tree, AllocError>
    ensures { IfOk result (λ t. view t ≡ cond (is_message && names_its_kind name.now) (view member)
        (worded (pairs_of words.now) false (view member))) }
{
    if is_message && names_its_kind(name) {
        return Ok(member);
    }
    word_tree(alloc, member, words, false)
}
