//! Prints differences as lines for human readers.
ghost use Rattle.std.specs.Prelude.{◌≡◌, ◌++◌, [], true, Some, None, codes, string_bytes, IfOk};
ghost use Rattle.std.specs.Prelude.{IsOk, OnOk};
ghost use Rattle.std.specs.List.{flat_map};
ghost use Rattle.dap_tree.specs.Doc.{is_sound};
ghost use Rattle.dap_tree.specs.Json.{text_of};
ghost use Rattle.dap_tree.specs.View.{view};
ghost use Rattle.dap_difference.specs.Lines.{are_plain, difference_lines};
ghost use Rattle.dap_difference.specs.Lines.{is_plain, is_plain_name, is_sound_difference};
ghost use Rattle.dap_difference.specs.Lines.{are_sound};
ghost use Rattle.dap_difference.specs.Lines.{name_text, path_text, step_text, value_line};
ghost use Rattle.dap_difference.specs.Shown.{at_path, path_of, step_of, shown_differences};
ghost use Rattle.dap_difference.specs.Telling.{differences, same_scalar};
ghost use Rattle.dap_difference.specs.Windows.{window};

use crate::windows::push_cut;
use crate::{Difference, Step, Values, differences, push_window};
use dap_tree::{Tree, write_tree};
use itoa::Buffer;
use std::alloc::{AllocError, Global};

/// The maximum number of characters of a value that are printed.
const SHOWN: usize = 200;

/// Returns whether a byte of a name is printed without quoting.
fn is_plain(byte: u8) -> bool
    ensures { result ≡ is_plain byte }
{
    byte.is_ascii_alphanumeric() || byte == b'_' || byte == b'-' || byte == b'$'
}

fn are_plain(bytes: &[u8]) -> bool
    ensures { result ≡ are_plain bytes.now }
{
    for byte in bytes {
        if !is_plain(*byte) {
            return false;
        }
    }
    true
}

/// Returns whether a name is printed without quoting.
fn is_plain_name(name: &[u8]) -> bool
    ensures { result ≡ is_plain_name name.now }
{
    match name {
        [] => false,
        [_, ..] => are_plain(name),
    }
}

/// Appends a name, unchanged or as a JSON string.
fn push_name(alloc: Global, name: &str, out: &mut Vec<u8>) -> Result<(), AllocError>
    ensures { OnOk result (out.new.items ≡ out.old.items ++ name_text name.now) }
{
    if is_plain_name(name.as_bytes()) {
        return out.extend_from_slice(name.as_bytes());
    }
    let tree = Tree::Text(String::from_str(alloc, name)?);
    let Ok(text) = write_tree(alloc, &tree) else {
        return Err(AllocError);
    };
    out.extend_from_slice(text.as_bytes())
}

/// Appends a step that is not the first of its path.
fn push_step(alloc: Global, step: Step<'_>, out: &mut Vec<u8>) -> Result<(), AllocError>
    ensures { OnOk result (out.new.items ≡ out.old.items ++ step_text (step_of step.entry)) }
{
    match step {
        Step::Member(name) => {
            out.extend_from_slice(b".")?;
            push_name(alloc, name, out)
        }
        Step::Item(place) => {
            let mut digits = Buffer::new();
            out.extend_from_slice(b"[")?;
            out.extend_from_slice(digits.format(place).as_bytes())?;
            out.extend_from_slice(b"]")
        }
    }
}

/// Appends the steps after the first one.
fn push_steps(alloc: Global, steps: &[Step<'_>], out: &mut Vec<u8>) -> Result<(), AllocError>
    ensures { OnOk result
        (out.new.items ≡ out.old.items ++ flat_map step_text (path_of steps.now)) }
{
    for step in steps {
        push_step(alloc, *step, out)?;
    }
    Ok(())
}

/// Appends a path, such as `body.stackFrames[2].line`. The path of the entire document is `.`.
///
/// # Errors
///
/// - `AllocError`: an allocation failed.
pub fn push_path(alloc: Global, path: &[Step<'_>], out: &mut Vec<u8>) -> Result<(), AllocError>
    ensures { OnOk result (out.new.items ≡ out.old.items ++ path_text (path_of path.now)) }
{
    match path {
        [] => out.extend_from_slice(b"."),
        [Step::Member(name), further @ ..] => {
            push_name(alloc, name, out)?;
            push_steps(alloc, further, out)
        }
        [Step::Item(_), ..] => push_steps(alloc, path, out),
    }
}

/// Returns the JSON text of a value.
fn text_of(alloc: Global, tree: &Tree) -> Result<String, AllocError>
    requires { is_sound (view tree.now) ≡ true }
    ensures { IfOk result (λ text. string_bytes text ≡ text_of (view tree.now)) }
{
    match write_tree(alloc, tree) {
        Ok(text) => Ok(text),
        Err(_) => Err(AllocError),
    }
}

/// Appends the side and the path of a line.
fn push_place(
    alloc: Global,
    side: &str,
    path: &[Step<'_>],
    out: &mut Vec<u8>,
) -> Result<(), AllocError>
    ensures { OnOk result (out.new.items
        ≡ out.old.items ++ side.now ++ codes " " ++ path_text (path_of path.now) ++ codes " ") }
{
    out.extend_from_slice(side.as_bytes())?;
    out.extend_from_slice(b" ")?;
    push_path(alloc, path, out)?;
    out.extend_from_slice(b" ")
}

/// Appends the line for a value that only this side has.
fn push_alone(
    alloc: Global,
    side: &str,
    path: &[Step<'_>],
    tree: &Tree,
    out: &mut Vec<u8>,
) -> Result<(), AllocError>
    requires { is_sound (view tree.now) ≡ true }
    ensures { OnOk result (out.new.items
        ≡ out.old.items ++ value_line side.now (path_of path.now) (Some (view tree.now)) None) }
{
    let text = text_of(alloc, tree)?;
    push_place(alloc, side, path, out)?;
    push_cut(text.as_bytes(), SHOWN, out)?;
    out.extend_from_slice(b"\n")
}

/// Appends the line for a value of one side, with that of the other side.
fn push_beside(
    alloc: Global,
    side: &str,
    path: &[Step<'_>],
    text: &str,
    other: &str,
    out: &mut Vec<u8>,
) -> Result<(), AllocError>
    ensures { OnOk result (out.new.items ≡ out.old.items ++ side.now ++ codes " "
        ++ path_text (path_of path.now) ++ codes " " ++ window 200 text.now other.now
        ++ codes "\n") }
{
    push_place(alloc, side, path, out)?;
    push_window(text, other, SHOWN, out)?;
    out.extend_from_slice(b"\n")
}

/// Appends the lines for two values that differ.
fn push_both(
    alloc: Global,
    path: &[Step<'_>],
    a: &Tree,
    b: &Tree,
    out: &mut Vec<u8>,
) -> Result<(), AllocError>
    requires a { is_sound (view a.now) ≡ true }
    requires b { is_sound (view b.now) ≡ true }
    ensures { OnOk result (out.new.items ≡ out.old.items
        ++ value_line (codes "A") (path_of path.now) (Some (view a.now)) (Some (view b.now))
        ++ value_line (codes "B") (path_of path.now) (Some (view b.now)) (Some (view a.now))) }
{
    let text = text_of(alloc, a)?;
    let other = text_of(alloc, b)?;
    push_beside(alloc, "A", path, text.as_str(), other.as_str(), out)?;
    push_beside(alloc, "B", path, other.as_str(), text.as_str(), out)
}

/// Appends the lines for the values of the trees at a path.
fn push_values(
    alloc: Global,
    path: &[Step<'_>],
    values: Values<'_>,
    out: &mut Vec<u8>,
) -> Result<(), AllocError>
    requires { is_sound_difference (at_path path.now values) ≡ true }
    ensures { OnOk result
        (out.new.items ≡ out.old.items ++ difference_lines (at_path path.now values.entry)) }
{
    match values {
        Values::OnlyA(tree) => push_alone(alloc, "A", path, tree, out),
        Values::OnlyB(tree) => push_alone(alloc, "B", path, tree, out),
        Values::Both(a, b) => push_both(alloc, path, a, b, out),
    }
}

/// Returns the differences of two sound trees as lines, in the order of their paths.
///
/// A line consists of `A` or `B`, the path, and the JSON text of that tree's value there, of which
/// at most 200 characters are printed. A longer text is cut as by [`push_window`], or, if only one
/// tree has a value there, after 200 characters. A path is, for example,
/// `body.stackFrames[2].line`. A value that exists in only one of the trees has only one line. Does
/// not allocate for two equal scalars.
///
/// # Errors
///
/// - `AllocError`: an allocation failed.
pub fn difference_text(alloc: Global, a: &Tree, b: &Tree) -> Result<Vec<u8>, AllocError>
    requires a { is_sound (view a.now) ≡ true }
    requires b { is_sound (view b.now) ≡ true }
    ensures lines { IfOk result (λ text. text.items
        ≡ flat_map difference_lines (differences (view a.now) (view b.now))) }
    ensures scalars { same_scalar (view a.now) (view b.now) ≡ true → IsOk result }
{
    let found = differences(alloc, a, b)?;
    lines_of(alloc, found.as_slice())
}

fn lines_of(alloc: Global, found: &[Difference<'_>]) -> Result<Vec<u8>, AllocError>
    requires { are_sound (shown_differences found.now) ≡ true }
    ensures lines { IfOk result
        (λ text. text.items ≡ flat_map difference_lines (shown_differences found.now)) }
    ensures none { shown_differences found.now ≡ [] → IsOk result }
{
    let mut text = Vec::new(alloc);
    for difference in found {
        push_values(
            alloc,
            difference.path.as_slice(),
            difference.values,
            &mut text,
        )?;
    }
    Ok(text)
}
