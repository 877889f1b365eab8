//! The values of the option `--word`, and the lines that they add to a text of rules.
ghost use Rattle.std.specs.Prelude.{◌≡◌, ◌≢◌, ◌<◌, ◌⊎◌, ◌++◌, ◌∷◌, [], IfErr, IfOk, Ok, OnErr};
ghost use Rattle.std.specs.{Option.MatchOption, Prelude.{OnOk, count_by, get_or, is_ok, length}};
ghost use Rattle.dap_mask.specs.{Mask.no_rules, RulesFile.{is_line_feed, rules_said}};
ghost use Rattle.dap_mask.specs.WordLines.{word_line};
ghost use Rattle.dapnorm.specs.WordOption.{BlamesFirst, HasEquals, HasLinesOf, HasNoEquals};
ghost use Rattle.dapnorm.specs.WordOption.{HasNoLines, HaveEquals, IsReportOf, ReportsLine};
ghost use Rattle.dapnorm.specs.WordOption.{line_end, pair_in, reason_of, with_lines};

use dap_commands::{Name, UsageFault};
use dap_mask::{MaskRules, RulesCause, RulesFault, write_word};
use dap_words::Word;
use std::alloc::{AllocError, Global};

/// Returns TEXT and WORD of a value TEXT=WORD. TEXT ends at the first `=`. `None`: the value does
/// not contain `=`.
fn parts(value: &str) -> Option<(&str, &str)>
    ensures { MatchOption result (HasNoEquals value.now) (λ parts. HasEquals value.now
        × (parts.0.now ≡ (pair_in value.now).text) × (parts.1.now ≡ (pair_in value.now).word)) }
{
    value.split_once('=')
}

/// Ends the last line of a text, if it does not end in a line feed.
fn end_line(text: &mut Vec<u8>) -> Result<(), AllocError>
    ensures ok { OnOk result (text.new.items ≡ text.old.items ++ line_end text.old.items) }
    ensures err { OnErr result (0 < length text.old.items) }
{
    match text.as_slice().last().copied() {
        None | Some(b'\n') => {}
        Some(_) => text.push(b'\n')?,
    }
    Ok(())
}

/// Appends the line of a rules file for a word, with its line feed.
fn push_line(alloc: Global, text: &str, word: &str, rules: &mut Vec<u8>) -> Result<(), AllocError>
    ensures { OnOk result (rules.new.items ≡ rules.old.items
        ++ (word_line (record { text = text.now; word = word.now }) ++ 10 ∷ [])) }
{
    let text = String::from_str(alloc, text)?;
    let word = String::from_str(alloc, word)?;
    let mut line = Vec::new(alloc);
    write_word(alloc, Word { text, word }, &mut line)?;
    // The line follows a line feed.
    rules.extend_from_slice(&line.as_slice()[1..])?;
    rules.push(b'\n')?;
    Ok(())
}

/// Returns what is reported of a value of the option.
fn bad_value(alloc: Global, value: &str, why: &str) -> UsageFault
    ensures { IsReportOf value.now why.now result }
{
    match format!(in alloc; "error: --word {value}: {why}\n") {
        Ok(text) => UsageFault::Usage(text),
        Err(_) => UsageFault::Memory,
    }
}

/// Returns the text of a rules file with a line for each value after it, in their order.
///
/// # Errors
///
/// - `Usage`: a value does not contain `=`.
/// - `Memory`: an allocation failed.
fn with_lines(alloc: Global, text: Vec<u8>, values: &[Name<'_>]) -> Result<Vec<u8>, UsageFault>
    ensures named { IfOk result (λ rules. HaveEquals values.now (length values.now)) }
    ensures lines { IfOk result (λ rules. rules.items ≡ with_lines text.items values.now) }
    ensures err { IfErr result
        (λ report. BlamesFirst values.now report ⊎ (report ≡ UsageFault.Memory)) }
{
    let mut rules = text;
    if end_line(&mut rules).is_err() {
        return Err(UsageFault::Memory);
    }
    for name in values {
        let value = name.as_str();
        let Some((text, word)) = parts(value) else {
            return Err(bad_value(alloc, value, "write TEXT=WORD"));
        };
        if push_line(alloc, text, word, &mut rules).is_err() {
            return Err(UsageFault::Memory);
        }
    }
    Ok(rules)
}

/// Returns why the rules do not accept the line of a word.
fn reason_of(text: &str, word: &str, cause: RulesCause) -> &'static str
    ensures { result.now ≡ reason_of (record { text = text.now; word = word.now }) cause }
{
    match cause {
        RulesCause::Repeated => "TEXT has a WORD already",
        RulesCause::TooMany => "there are more than 1,000 rules",
        RulesCause::TooLong => "the rules are longer than 65,536 bytes",
        _ if text.is_empty() => "TEXT is empty",
        _ if word.is_empty() => "WORD is empty",
        _ => "a WORD and a TEXT overlap: take another WORD, such as <home>",
    }
}

/// Returns the number of line feeds.
fn line_count(text: &[u8]) -> usize
    ensures { result ≡ count_by is_line_feed text.now }
{
    text.iter().filter(|byte| **byte == b'\n').count()
}

/// Returns the value with an index. It is empty if there is none.
fn value_at<'a>(values: &[Name<'a>], index: usize) -> &'a str
    ensures { result.now ≡ get_or values.now index [] }
{
    values.get(index).map_or("", |value| value.as_str())
}

/// Returns what is reported of the value whose line is rejected. The last lines of the rules are
/// those of the values.
fn refused_value(alloc: Global, rules: &[u8], values: &[Name<'_>], fault: RulesFault) -> UsageFault
    ensures { ReportsLine values.now rules.now fault result }
{
    let after = line_count(rules).saturating_sub(fault.line);
    let index = values.len().saturating_sub(1).saturating_sub(after);
    let value = value_at(values, index);
    match parts(value) {
        Some((text, word)) => bad_value(alloc, value, reason_of(text, word, fault.cause)),
        None => UsageFault::Memory,
    }
}

/// Returns whether a rules file of this text is accepted.
fn is_accepted(alloc: Global, text: &[u8]) -> Result<bool, AllocError>
    ensures ok { IfOk result (λ accepted. accepted ≡ is_ok (rules_said text.now)) }
    ensures err { OnErr result (rules_said text.now ≢ Ok no_rules) }
{
    match MaskRules::read(alloc, text) {
        Ok(_) => Ok(true),
        Err(fault) => match fault.cause {
            RulesCause::Memory => Err(AllocError),
            _ => Ok(false),
        },
    }
}

/// Returns a text of rules with a line for each value of the option after it. A text that is
/// rejected alone gets the lines too, so that its reader reports it.
///
/// # Errors
///
/// - `Usage`: a value does not contain `=`, or the rules do not accept its word.
/// - `Memory`: an allocation failed.
pub(crate) fn with_values(
    alloc: Global,
    text: Vec<u8>,
    values: &[Name<'_>],
) -> Result<Vec<u8>, UsageFault>
    ensures ok { IfOk result (λ rules. HasLinesOf values.now text.items rules.items) }
    ensures err { IfErr result (HasNoLines values.now text.items) }
{
    if values.is_empty() {
        return Ok(text);
    }
    let Ok(is_accepted) = is_accepted(alloc, text.as_slice()) else {
        return Err(UsageFault::Memory);
    };
    let rules = with_lines(alloc, text, values)?;
    if !is_accepted {
        return Ok(rules);
    }
    match MaskRules::read(alloc, rules.as_slice()) {
        Ok(_) => Ok(rules),
        Err(fault) => match fault.cause {
            RulesCause::Memory => Err(UsageFault::Memory),
            _ => Err(refused_value(alloc, rules.as_slice(), values, fault)),
        },
    }
}
