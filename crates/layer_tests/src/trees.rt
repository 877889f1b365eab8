//! Tests the calls on trees that no command makes, and the differences of trees that are not
//! messages.
use dap_difference::difference_text;
use dap_tree::{Sort, Tree, read_tree, write_tree};
use std::alloc::Global;

fn put(tree: &mut Tree) {
    if let Some(member) = tree.child_mut("a") {
        *member = Tree::Whole(2);
    }
}

/// Returns whether the member is replaced, and an absent one is not.
fn sets(tree: &mut Tree) -> bool {
    matches!(tree.set_child("a", Tree::Whole(3)), Ok(Tree::Whole(2)))
        && matches!(tree.set_child("b", Tree::Null), Err(Tree::Null))
}

fn lend(tree: &mut Tree) {
    tree.with_child("c", |member| {
        *member = Tree::Id(Sort::Frame, 7);
    });
}

fn is_written(alloc: Global, tree: &Tree, text: &str) -> bool {
    tree.sound() && matches!(write_tree(alloc, tree), Ok(written) if written.as_str() == text)
}

/// Returns whether members are changed, and whether the tree is plain only before it has an id.
fn changes(alloc: Global, tree: &mut Tree) -> bool {
    let is_plain = tree.plain();
    put(tree);
    let is_set = sets(tree);
    lend(tree);
    is_plain && is_set && !tree.plain() && is_written(alloc, tree, "{\"a\":3,\"c\":7}")
}

#[test]
fn members(rt: HostRuntime) {
    let mut tree = read_tree(rt.alloc(), b"{\"a\":1,\"c\":1}").expect(&rt, "no tree");
    assert!(rt; changes(rt.alloc(), &mut tree));
}

fn are_lines(alloc: Global, a: &Tree, b: &Tree, lines: &[u8]) -> bool {
    a.sound()
        && b.sound()
        && matches!(difference_text(alloc, a, b), Ok(text) if text.as_slice() == lines)
}

/// Two contents, and the lines of their differences: the path is that of the whole document, or
/// starts with an array.
const TOLD: [(&[u8], &[u8], &[u8]); 2] = [
    (b"1", b"2", b"A . 1\nB . 2\n"),
    (b"[[]]", b"[[],{\"a\":[7]}]", b"B [1] {\"a\":[7]}\n"),
];

#[test]
fn paths_of_whole_documents(rt: HostRuntime) {
    for (a, b, lines) in &TOLD {
        let a = read_tree(rt.alloc(), a).expect(&rt, "no tree");
        let b = read_tree(rt.alloc(), b).expect(&rt, "no tree");
        assert!(rt; are_lines(rt.alloc(), &a, &b, lines));
    }
}
