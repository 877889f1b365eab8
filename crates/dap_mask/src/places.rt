//! Parses the places of a rules file.
ghost use Rattle.std.specs.Prelude.{◌≡◌, IfOk, option_map, string_bytes};
ghost use Rattle.dap_mask.specs.RuleText.{bracket_behind, each_step, next_step, place_at};
ghost use Rattle.dap_mask.specs.Rules.{step_of, place_of};

use crate::names::{name_at, quoted_at};
use crate::rules::Step;
use std::alloc::{AllocError, Global};

/// Parses the place with which a text starts: a name, and further steps such as `.name`, `[]` and
/// `["name"]`. Returns the place and the rest of the text; `None` if the text starts with no name.
/// A further step that is malformed, such as `["x"`, is the start of the rest. Allocates the place.
///
/// # Errors
///
/// `AllocError`: an allocation failed.
pub fn place_at(alloc: Global, text: &[u8]) -> Result<Option<(Vec<Step>, &[u8])>, AllocError>
    ensures { IfOk result
        (λ o. option_map (λ p. (place_of p.0.items, p.1.now)) o ≡ place_at text.now) }
{
    let Some((name, behind)) = name_at(alloc, text)? else {
        return Ok(None);
    };
    let mut steps = Vec::new(alloc);
    steps.push(Step::Member(name))?;
    let mut rest = behind;
    // A place has no more steps than its text has bytes.
    let mut left = text.len();
    while left > 0 {
        left -= 1;
        match next_step(alloc, rest)? {
            Some((step, behind)) => {
                steps.push(step)?;
                rest = behind;
            }
            None => return Ok(Some((steps, rest))),
        }
    }
    Ok(None)
}

// Returns the next step of a place, and the rest; `None` if the place ends here.
fn next_step(alloc: Global, text: &[u8]) -> Result<Option<(Step, &[u8])>, AllocError>
    ensures { IfOk result (λ o. option_map (λ p. (step_of p.0, p.1.now)) o ≡ next_step text.now) }
{
    match text {
        [b'.', behind @ ..] => match name_at(alloc, behind)? {
            Some((name, rest)) => Ok(Some((Step::Member(name), rest))),
            None => Ok(None),
        },
        [b'[', behind @ ..] => each_step(alloc, behind),
        _ => Ok(None),
    }
}

// Parses the rest of `[]` or `["NAME"]` after its first bracket.
fn each_step(alloc: Global, text: &[u8]) -> Result<Option<(Step, &[u8])>, AllocError>
    ensures { IfOk result (λ o. option_map (λ p. (step_of p.0, p.1.now)) o ≡ each_step text.now) }
{
    match text {
        [b']', rest @ ..] => Ok(Some((Step::Each, rest))),
        [b'"', ..] => match quoted_at(alloc, text)? {
            Some((name, behind)) => Ok(bracket_behind(name, behind)),
            None => Ok(None),
        },
        _ => Ok(None),
    }
}

// Returns the step to the elements with this name, and the rest; `None` if no bracket follows.
fn bracket_behind(name: String, text: &[u8]) -> Option<(Step, &[u8])>
    ensures { option_map (λ p. (step_of p.0, p.1.now)) result
        ≡ bracket_behind (string_bytes name) text.now }
{
    match text {
        [b']', rest @ ..] => Some((Step::Element(name), rest)),
        _ => None,
    }
}
