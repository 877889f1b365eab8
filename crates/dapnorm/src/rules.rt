//! Reads the rules of a command.
ghost use Rattle.std.specs.Prelude.{◌≡◌};
ghost use Rattle.dap_commands.specs.Reading.{text_in};
ghost use Rattle.dapnorm.specs.{Lines.line_text, Reasons.{no_rules_line, no_rules_status}};
ghost use Rattle.dapnorm.specs.Rules.{AreGivenRules, AreRules, IsRulesText, IsTextOf};

use crate::line::{Line, Part, fault};
use crate::reading::{Unread, read_file};
use crate::reporting::{MEMORY, REFUSED, USAGE};
use crate::words::with_values;
use dap_commands::{Name, UsageFault};
use dap_host::{Host, Purpose};
use dap_input::Refused;
use dap_mask::{MaskRules, RulesCause, RulesFault};
use std::alloc::Global;

/// The maximum number of bytes of a rules file.
const RULES: u64 = 65_536;

/// Why there are no rules.
#[derive(Drop)]
pub enum NoRules {
    /// A value of the option `--word` adds no rule.
    Words(UsageFault),
    /// The rules file was not read.
    File(Unread),
    /// A line of this text is rejected.
    Line(RulesFault, Vec<u8>),
    /// An allocation failed.
    Memory,
}

impl NoRules {
    /// Returns the line that reports it, and the status of the program.
    pub(crate) fn line_and_status(&self) -> (Line<'_>, u8)
        ensures line { line_text result.0 ≡ no_rules_line self.now }
        ensures status { result.1 ≡ no_rules_status self.now }
    {
        match self {
            NoRules::Words(UsageFault::Usage(text) | UsageFault::Help(text)) => {
                (Line::Whole(text), USAGE)
            }
            NoRules::File(why) => {
                let line = fault(Part::Text("rules: read fault"));
                why.line_and_status(line, Part::Text("rules: "), Part::Text(""))
            }
            NoRules::Line(why, _) => {
                let (words, name) = (Part::Text("rules: line "), Part::Text(why.cause.name()));
                let line = Line::Fault(words, Part::Count(why.line), Part::Text(": "), name);
                (line, REFUSED)
            }
            NoRules::Words(UsageFault::Memory) | NoRules::Memory => {
                (fault(Part::Refused(Refused::Memory)), MEMORY)
            }
        }
    }
}

/// Reads the text of a rules file, with at most one byte past the limit. Without a name it is
/// empty.
fn text_of<H: Host>(alloc: Global, host: &H, name: Option<&str>) -> Result<Vec<u8>, Unread>
    ensures { IsTextOf (H.files host.now) H.Input.Source (text_in name.entry) result }
{
    let mut file = None;
    match name {
        Some(name) => read_file(alloc, host, Purpose::Rules, name, RULES, &mut file),
        None => Ok(Vec::new(alloc)),
    }
}

/// Reads the text of the rules of a command: that of its rules file, and a line for each value of
/// the option `--word`.
pub(crate) fn rules_text<H: Host>(
    alloc: Global,
    host: &H,
    name: Option<&str>,
    values: &[Name<'_>],
) -> Result<Vec<u8>, NoRules>
    ensures { IsRulesText (H.files host.now) H.Input.Source (text_in name.entry) values.now
        result }
{
    let text = match text_of(alloc, host, name) {
        Ok(text) => text,
        Err(why) => return Err(NoRules::File(why)),
    };
    match with_values(alloc, text, values) {
        Ok(rules) => Ok(rules),
        Err(fault) => Err(NoRules::Words(fault)),
    }
}

/// Reads the rules of a command.
pub(crate) fn rules_of<H: Host>(
    alloc: Global,
    host: &H,
    name: Option<&str>,
    values: &[Name<'_>],
) -> Result<MaskRules, NoRules>
    ensures { AreRules (H.files host.now) H.Input.Source (text_in name.entry) values.now result }
{
    let text = match rules_text(alloc, host, name, values) {
        Ok(text) => text,
        Err(why) => return Err(why),
    };
    match MaskRules::read(alloc, text.as_slice()) {
        Ok(rules) => Ok(rules),
        Err(fault) => match fault.cause {
            RulesCause::Memory => Err(NoRules::Memory),
            _ => Err(NoRules::Line(fault, text)),
        },
    }
}

/// Reads the rules of a command that need not have any: without a rules file and words, it has
/// none.
pub(crate) fn given_rules<H: Host>(
    alloc: Global,
    host: &H,
    name: Option<&str>,
    values: &[Name<'_>],
) -> Result<Option<MaskRules>, NoRules>
    ensures { AreGivenRules (H.files host.now) H.Input.Source (text_in name.entry) values.now
        result }
{
    if name.is_none() && values.is_empty() {
        return Ok(None);
    }
    match rules_of(alloc, host, name, values) {
        Ok(rules) => Ok(Some(rules)),
        Err(why) => Err(why),
    }
}
