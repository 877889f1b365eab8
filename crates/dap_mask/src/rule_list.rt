//! Reads the rules of a mask from a file. Stores changes in the order in which they apply, and
//! other rules in the order of the file.
ghost use Rattle.std.specs.Prelude.{◌≡◌, ◌≢◌, ◌≤◌, true, cond, None, Some, Ok, Err, option_map};
ghost use Rattle.std.specs.Prelude.{IfOk, IfErr, OnOk, length, string_bytes, ◌+◌, vec_len, ◌||◌};
ghost use Rattle.std.specs.{Str.is_utf8, List.list_any};
ghost use Rattle.dap_mask.specs.Categories.{category_of, categories_of, keep_categories};
ghost use Rattle.dap_mask.specs.Categories.{keep_output};
ghost use Rattle.dap_mask.specs.Declarations.{declaration_of, declarations_of, are_declared};
ghost use Rattle.dap_mask.specs.Fills.{fill_of, fills_of, keep_fills};
ghost use Rattle.dap_mask.specs.Ids.{leave_ids, takes_profile_id};
ghost use Rattle.dap_mask.specs.Omissions.{omission_of};
ghost use Rattle.dap_mask.specs.Rules.{rule_of, rules_of, are_safe, are_idempotent, same_name};
ghost use Rattle.dap_mask.specs.Rules.{is_misplaced};
ghost use Rattle.dap_mask.specs.RulesFile.{last_line, cause_of_word};
ghost use Rattle.dap_words.specs.{Words.pair_of, Kept.pairs_in};

use crate::categories::{
    CategoryRule, disturbs_one_of, is_category_among, is_moved_by, is_output_moved_by,
    moves_one_of, moves_output, recategorises,
};
use crate::declarations::{
    Declaration, blurs_one_of, disagrees_with, is_blurred_by, is_declared_among, is_misdeclared,
    is_own_label,
};
use crate::element_names::renames;
use crate::fault::{RulesCause, RulesFault};
use crate::fills::{
    FillRule, clashes_with_fills, is_fill_among, is_fill_misplaced, is_removed_by, removes_one_of,
};
use crate::joining::Joining;
use crate::meets::{clashes_with, is_among, is_telling_place, same_name, text_of};
use crate::omissions::{Omission, is_by_name, is_omission_among};
use crate::profile_ids::takes_profile_id;
use crate::rule_order::place_in;
use crate::rules::MaskRule;
use crate::runs::{ByteClass, split_run};
use crate::statement::{Line, Statement, read_line};
use crate::swaps::is_swap_among;
use dap_message::SwapRule;
use dap_words::{Word, WordCause, Words};
use std::alloc::{AllocError, Global};
use std::str;

/// The maximum length of a rules file in bytes.
const MAX_BYTES: usize = 65_536;

/// The maximum number of rules of a mask.
const MAX_RULES: usize = 1_000;

/// The rules of a mask, at most `MAX_RULES`: the changes in the order in which they apply, the
/// other rules in the order of their file.
///
/// The place of a rule is never the message itself, its `type`, `command`, `event` or `success`, or
/// an id that the profile renames. No rule changes `body` or `body.category` of events to which it
/// or another rule applies by their category, and none changes `body.category` of `output` events
/// if output is joined. No change removes a member that another rule sets. Masking a masked message
/// again does not change it, if its members are in order. The places of declared ids have the same
/// restrictions, and are not names of elements. The place of a rule that omits elements ends in
/// their name.
#[derive(Drop)]
pub(crate) struct RuleList {
    changes: Vec<MaskRule>,
    pub(crate) dropped: Vec<Option<String>>,
    pub(crate) categories: Vec<CategoryRule>,
    pub(crate) swaps: Vec<SwapRule>,
    pub(crate) per_stop: bool,
    pub(crate) joining: Option<Joining>,
    pub(crate) words: Words,
    pub(crate) fills: Vec<FillRule>,
    pub(crate) omissions: Vec<Omission>,
    pub(crate) declared: Vec<Declaration>,
    ghost few: { vec_len changes + vec_len dropped + vec_len categories + vec_len swaps
        + length (pairs_in words) + vec_len fills + vec_len omissions + vec_len declared ≤ 1000 },
    ghost safe: { are_safe (rules_of changes.items) ≡ true },
    ghost settled: { are_idempotent (rules_of changes.items) ≡ true },
    ghost leave: { leave_ids (rules_of changes.items) ≡ true },
    ghost kept: { keep_categories (rules_of changes.items) (categories_of categories.items)
        ≡ true },
    ghost apart: { keep_output (rules_of changes.items) joining ≡ true },
    ghost full: { keep_fills (rules_of changes.items) (fills_of fills.items) ≡ true },
    ghost labelled: { are_declared (declarations_of declared.items) ≡ true },
}

impl RuleList {
    ghost use Rattle.dap_mask.specs.{Categories.{moves_one_of, moves_joined}, Rules.clashes_with};
    ghost use Rattle.dap_mask.specs.Rules.{disturbs_one_of};
    ghost use Rattle.dap_mask.specs.ListedRules.{listed_mask, listed_changes, listed_categories};
    ghost use Rattle.dap_mask.specs.ListedRules.{listed_joining, listed_fills, listed_declared};
    ghost use Rattle.dap_mask.specs.Declarations.{blurs_one_of, disagrees_with, is_blurred_by};
    ghost use Rattle.dap_mask.specs.Fills.{removes_one_of, clashes_with_fills, is_removed_by};
    ghost use Rattle.dap_mask.specs.Mask.{no_rules, rule_count, with_rule, statement_of, nothing};
    ghost use Rattle.dap_mask.specs.Mask.{change, leave_out_category, join, put, fill, omit};
    ghost use Rattle.dap_mask.specs.Mask.{declare};
    ghost use Rattle.dap_mask.specs.RuleText.{line_said};
    ghost use Rattle.dap_mask.specs.RulesFile.{cause_against, line_outcome, rules_from, rules_said};
    ghost use Rattle.dap_mask.specs.RulesFile.{change_cause, join_cause, fill_cause};
    ghost use Rattle.dap_mask.specs.RulesFile.{omission_cause, declaration_cause};
    ghost use Rattle.dap_mask.specs.Runs.{lines_of};

    /// Reads the rules of a file.
    ///
    /// A line contains a rule or nothing; `#` starts a comment. The error is that of the first line
    /// that is rejected. `Memory` is returned only for a file that is not too long and contains a
    /// rule or a line that is rejected.
    #[tactic(auto, unfolding(crate::specs::RulesFile::rules_said))]
    pub(crate) fn read(alloc: Global, text: &[u8]) -> Result<RuleList, RulesFault>
        ensures ok { IfOk result (λ r. rules_said text.now ≡ Ok (listed_mask r)) }
        ensures err { IfErr result
            (λ f. f.cause ≢ RulesCause.Memory → rules_said text.now ≡ Err f) }
        ensures memory { IfErr result
            (λ f. f.cause ≡ RulesCause.Memory → length text.now ≤ 65536) }
        ensures short { OnOk result (length text.now ≤ 65536) }
        ensures needed { IfErr result
            (λ f. f.cause ≡ RulesCause.Memory → rules_said text.now ≢ Ok no_rules) }
    {
        if text.len() > MAX_BYTES {
            return Err(RulesFault {
                line: last_line(&text[..MAX_BYTES]),
                cause: RulesCause::TooLong,
            });
        }
        let mut rules = RuleList::new(alloc);
        rules.take_lines(alloc, text)?;
        Ok(rules)
    }

    fn new(alloc: Global) -> RuleList
        ensures { listed_mask result ≡ no_rules }
    {
        RuleList {
            changes: Vec::new(alloc),
            dropped: Vec::new(alloc),
            categories: Vec::new(alloc),
            swaps: Vec::new(alloc),
            per_stop: false,
            joining: None,
            words: Words::new(alloc),
            fills: Vec::new(alloc),
            omissions: Vec::new(alloc),
            declared: Vec::new(alloc),
        }
    }

    /// Returns the changes, in the order in which they apply.
    pub(crate) fn changes(&self) -> &[MaskRule]
        ensures { rules_of result.now ≡ listed_changes self.now }
    {
        self.changes.as_slice()
    }

    /// Returns the number of rules.
    fn rule_count(&self) -> usize
        ensures { result ≡ rule_count (listed_mask self.now) }
    {
        let values = self.changes.len() + self.dropped.len() + self.categories.len();
        let lists = values + self.swaps.len() + self.words.len() + self.fills.len();
        let lists = lists + self.omissions.len() + self.declared.len();
        let stops = if self.per_stop { lists + 1 } else { lists };
        match self.joining {
            Some(_) => stops + 1,
            None => stops,
        }
    }

    fn take_lines(&mut self, alloc: Global, text: &[u8]) -> Result<(), RulesFault>
        requires { length text.now ≤ 65536 }
        ensures ok { OnOk result
            (rules_from (listed_mask self.old) 1 (lines_of text.now) ≡ Ok (listed_mask self.new)) }
        ensures err { IfErr result (λ f. f.cause ≢ RulesCause.Memory
            → rules_from (listed_mask self.old) 1 (lines_of text.now) ≡ Err f) }
        ensures memory { IfErr result (λ f. f.cause ≡ RulesCause.Memory
            → rules_from (listed_mask self.old) 1 (lines_of text.now) ≢ Ok (listed_mask self.old)) }
    {
        let mut rest = text;
        let mut number = 1;
        loop {
            let (line, behind) = split_run(rest, ByteClass::InLine);
            if let Err(cause) = self.take_line(alloc, line) {
                return Err(RulesFault {
                    line: number,
                    cause,
                });
            }
            match behind {
                [] => return Ok(()),
                [_, next @ ..] => {
                    rest = next;
                    number += 1;
                }
            }
        }
    }

    fn take_line(&mut self, alloc: Global, line: &[u8]) -> Result<(), RulesCause>
        ensures ok { OnOk result
            (line_outcome (listed_mask self.old) line.now ≡ Ok (listed_mask self.new)) }
        ensures err { IfErr result (λ c. c ≢ RulesCause.Memory
            → line_outcome (listed_mask self.old) line.now ≡ Err c) }
        ensures memory { IfErr result
            (λ c. c ≡ RulesCause.Memory → line_said line.now ≢ nothing) }
    {
        if !is_utf8(line) {
            return Err(RulesCause::NotUtf8);
        }
        match read_line(alloc, line)? {
            Line::Nothing => Ok(()),
            Line::Bad => Err(RulesCause::BadRule),
            Line::Rule(statement) => match self.cause_against(&statement) {
                Some(cause) => Err(cause),
                None => {
                    self.take(statement)?;
                    Ok(())
                }
            },
        }
    }

    // Returns whether the change may give an event another category, by which a rule drops it or
    // by which it is joined, or may remove a member that a rule sets.
    #[tactic(auto, using(crate::proofs::Lists::any_mapped))]
    fn moves(&self, rule: &MaskRule) -> bool
        ensures { result ≡ (moves_one_of (rule_of rule.now) (listed_categories self.now)
            || (moves_joined (rule_of rule.now) (listed_joining self.now)
            || removes_one_of (rule_of rule.now) (listed_fills self.now))) }
    {
        moves_one_of(rule, &self.categories)
            || (self.joining.is_some() && moves_output(rule))
            || removes_one_of(rule, &self.fills)
    }

    // Returns whether the change may change the category by which another rule selects or joins
    // events, or another change the category of this one, or may remove a member that a rule sets.
    #[tactic(auto, using(crate::proofs::Lists::any_mapped))]
    fn disturbs(&self, rule: &MaskRule) -> bool
        ensures { result ≡ (disturbs_one_of (rule_of rule.now) (listed_changes self.now)
            || (moves_one_of (rule_of rule.now) (listed_categories self.now)
            || (moves_joined (rule_of rule.now) (listed_joining self.now)
            || removes_one_of (rule_of rule.now) (listed_fills self.now)))) }
    {
        disturbs_one_of(rule, &self.changes) || self.moves(rule)
    }

    // Returns whether the change excludes one of the changes, or disturbs a rule.
    #[tactic(auto, using(crate::proofs::Lists::any_mapped))]
    fn clashes(&self, rule: &MaskRule) -> bool
        ensures { result ≡ (clashes_with (rule_of rule.now) (listed_changes self.now)
            || (disturbs_one_of (rule_of rule.now) (listed_changes self.now)
            || (moves_one_of (rule_of rule.now) (listed_categories self.now)
            || (moves_joined (rule_of rule.now) (listed_joining self.now)
            || removes_one_of (rule_of rule.now) (listed_fills self.now))))) }
    {
        clashes_with(rule, &self.changes) || self.disturbs(rule)
    }

    // Returns why the change may not follow the rules read so far, apart from their number.
    #[tactic(auto, using(crate::proofs::Lists::any_mapped))]
    fn change_cause(&self, rule: &MaskRule) -> Option<RulesCause>
        ensures { result ≡ change_cause (listed_mask self.now) (rule_of rule.now) }
    {
        if is_forbidden(rule) {
            Some(RulesCause::BadPlace)
        } else if is_among(rule, &self.changes) {
            Some(RulesCause::Repeated)
        } else if self.clashes(rule) {
            Some(RulesCause::Clash)
        } else {
            cause_if(blurs_one_of(rule, &self.declared), RulesCause::Clash)
        }
    }

    // Returns why a rule that joins output may not follow the rules read so far, apart from their
    // number.
    #[tactic(auto, using(crate::proofs::Lists::any_mapped))]
    fn join_cause(&self) -> Option<RulesCause>
        ensures { result ≡ join_cause (listed_mask self.now) }
    {
        if self.joining.is_some() {
            Some(RulesCause::Repeated)
        } else {
            cause_if(is_output_moved_by(&self.changes), RulesCause::Clash)
        }
    }

    // Returns whether another rule may set the same member, or a change may remove it.
    #[tactic(auto, using(crate::proofs::Lists::any_mapped))]
    fn excludes_fill(&self, rule: &FillRule) -> bool
        ensures { result ≡ (clashes_with_fills (fill_of rule.now) (listed_fills self.now)
            || is_removed_by (listed_changes self.now) (fill_of rule.now)) }
    {
        clashes_with_fills(rule, &self.fills) || is_removed_by(&self.changes, rule)
    }

    // Returns why a rule that sets a member may not follow the rules read so far, apart from their
    // number.
    #[tactic(auto, using(crate::proofs::Lists::any_mapped))]
    fn fill_cause(&self, rule: &FillRule) -> Option<RulesCause>
        ensures { result ≡ fill_cause (listed_mask self.now) (fill_of rule.now) }
    {
        if is_fill_misplaced(rule) {
            Some(RulesCause::BadPlace)
        } else if is_fill_among(rule, &self.fills) {
            Some(RulesCause::Repeated)
        } else {
            cause_if(self.excludes_fill(rule), RulesCause::Clash)
        }
    }

    // Returns why a rule that omits elements may not follow the rules read so far, apart from their
    // number.
    #[tactic(auto, using(crate::proofs::Lists::any_mapped))]
    fn omission_cause(&self, rule: &Omission) -> Option<RulesCause>
        ensures { result ≡ omission_cause (listed_mask self.now) (omission_of rule.now) }
    {
        if is_by_name(&rule.last) {
            cause_if(
                is_omission_among(rule, &self.omissions),
                RulesCause::Repeated,
            )
        } else {
            Some(RulesCause::BadPlace)
        }
    }

    // Returns whether another declaration may find the same ids, or a change may change a number in
    // a name.
    #[tactic(auto, using(crate::proofs::Lists::any_mapped))]
    fn excludes_declaration(&self, rule: &Declaration) -> bool
        ensures { result ≡ (disagrees_with (declaration_of rule.now) (listed_declared self.now)
            || is_blurred_by (listed_changes self.now) (declaration_of rule.now)) }
    {
        disagrees_with(rule, &self.declared) || is_blurred_by(&self.changes, rule)
    }

    // Returns why a declaration may not follow the rules read so far, apart from their number.
    #[tactic(auto, using(crate::proofs::Lists::any_mapped))]
    fn declaration_cause(&self, rule: &Declaration) -> Option<RulesCause>
        ensures { result ≡ declaration_cause (listed_mask self.now) (declaration_of rule.now) }
    {
        if !is_own_label(rule.label.as_str()) {
            Some(RulesCause::BadLabel)
        } else if is_misdeclared(&rule.rule) {
            Some(RulesCause::BadPlace)
        } else if is_declared_among(rule, &self.declared) {
            Some(RulesCause::Repeated)
        } else {
            cause_if(self.excludes_declaration(rule), RulesCause::Clash)
        }
    }

    /// Returns why the rule may not follow the rules read so far; `None` if it may.
    #[tactic(auto, using(crate::proofs::Lists::any_mapped))]
    fn cause_against(&self, statement: &Statement) -> Option<RulesCause>
        ensures { result ≡ cause_against (listed_mask self.now) (statement_of statement.now) }
    {
        if self.rule_count() >= MAX_RULES {
            return Some(RulesCause::TooMany);
        }
        match statement {
            Statement::Change(rule) => self.change_cause(rule),
            Statement::LeaveOut(name) => {
                cause_if(is_name_among(name, &self.dropped), RulesCause::Repeated)
            }
            Statement::LeaveOutCategory(rule) => {
                if is_category_among(rule, &self.categories) {
                    Some(RulesCause::Repeated)
                } else {
                    cause_if(is_moved_by(&self.changes, rule), RulesCause::Clash)
                }
            }
            Statement::Swap(swap) => {
                cause_if(is_swap_among(swap, &self.swaps), RulesCause::Repeated)
            }
            Statement::PerStop => cause_if(self.per_stop, RulesCause::Repeated),
            Statement::Join(_) => self.join_cause(),
            Statement::Put(word) => {
                match self.words.cause_against(word) {
                    Some(cause) => Some(cause_of_word(cause)),
                    None => None,
                }
            }
            Statement::Fill(rule) => self.fill_cause(rule),
            Statement::Omit(rule) => self.omission_cause(rule),
            Statement::Declare(rule) => self.declaration_cause(rule),
        }
    }

    fn take_change(&mut self, rule: MaskRule) -> Result<(), AllocError>
        requires { cause_against (listed_mask self.old) (change (rule_of rule)) ≡ None }
        ensures { OnOk result
            (listed_mask self.new ≡ with_rule (listed_mask self.old) (change (rule_of rule))) }
    {
        let place = place_in(&self.changes, &rule);
        self.changes.insert(place, rule)?;
        Ok(())
    }

    fn take_category(&mut self, rule: CategoryRule) -> Result<(), AllocError>
        requires { cause_against (listed_mask self.old) (leave_out_category (category_of rule))
            ≡ None }
        ensures { OnOk result (listed_mask self.new
            ≡ with_rule (listed_mask self.old) (leave_out_category (category_of rule))) }
    {
        self.categories.push(rule)?;
        Ok(())
    }

    fn take_joining(&mut self, joining: Joining)
        requires { cause_against (listed_mask self.old) (join joining) ≡ None }
        ensures { listed_mask self.new ≡ with_rule (listed_mask self.old) (join joining) }
    {
        self.joining = Some(joining);
    }

    fn take_word(&mut self, word: Word) -> Result<(), AllocError>
        requires { cause_against (listed_mask self.old) (put (pair_of word)) ≡ None }
        ensures { OnOk result
            (listed_mask self.new ≡ with_rule (listed_mask self.old) (put (pair_of word))) }
    {
        self.words.push(word)?;
        Ok(())
    }

    fn take_fill(&mut self, rule: FillRule) -> Result<(), AllocError>
        requires { cause_against (listed_mask self.old) (fill (fill_of rule)) ≡ None }
        ensures { OnOk result
            (listed_mask self.new ≡ with_rule (listed_mask self.old) (fill (fill_of rule))) }
    {
        self.fills.push(rule)?;
        Ok(())
    }

    fn take_omission(&mut self, rule: Omission) -> Result<(), AllocError>
        requires { cause_against (listed_mask self.old) (omit (omission_of rule)) ≡ None }
        ensures { OnOk result
            (listed_mask self.new ≡ with_rule (listed_mask self.old) (omit (omission_of rule))) }
    {
        self.omissions.push(rule)?;
        Ok(())
    }

    fn take_declaration(&mut self, rule: Declaration) -> Result<(), AllocError>
        requires { cause_against (listed_mask self.old) (declare (declaration_of rule)) ≡ None }
        ensures { OnOk result (listed_mask self.new
            ≡ with_rule (listed_mask self.old) (declare (declaration_of rule))) }
    {
        self.declared.push(rule)?;
        Ok(())
    }

    fn take(&mut self, statement: Statement) -> Result<(), AllocError>
        requires { cause_against (listed_mask self.old) (statement_of statement) ≡ None }
        ensures { OnOk result
            (listed_mask self.new ≡ with_rule (listed_mask self.old) (statement_of statement)) }
    {
        match statement {
            Statement::Change(rule) => self.take_change(rule)?,
            Statement::LeaveOut(name) => self.dropped.push(name)?,
            Statement::LeaveOutCategory(rule) => self.take_category(rule)?,
            Statement::Swap(swap) => self.swaps.push(swap)?,
            Statement::PerStop => self.per_stop = true,
            Statement::Join(joining) => self.take_joining(joining),
            Statement::Put(word) => self.take_word(word)?,
            Statement::Fill(rule) => self.take_fill(rule)?,
            Statement::Omit(rule) => self.take_omission(rule)?,
            Statement::Declare(rule) => self.take_declaration(rule)?,
        }
        Ok(())
    }
}

fn is_utf8(line: &[u8]) -> bool
    ensures { result ≡ is_utf8 line.now }
{
    match str::from_utf8(line) {
        Ok(_) => true,
        Err(_) => false,
    }
}

// Returns the number of the last line of the text.
fn last_line(text: &[u8]) -> usize
    requires { length text.now ≤ 65536 }
    ensures { result ≡ last_line text.now }
{
    text.iter().filter(|byte| **byte == b'\n').count() + 1
}

fn cause_of_word(cause: WordCause) -> RulesCause
    ensures { result ≡ cause_of_word cause }
{
    match cause {
        WordCause::Empty | WordCause::Meets => RulesCause::BadWord,
        WordCause::Repeated => RulesCause::Repeated,
        WordCause::Memory => RulesCause::Memory,
    }
}

// Returns whether no mask may contain the change, because of its place.
fn is_forbidden(rule: &MaskRule) -> bool
    ensures { result ≡ (is_misplaced (rule_of rule.now) || takes_profile_id (rule_of rule.now)) }
{
    is_misplaced(rule) || takes_profile_id(rule)
}

fn is_misplaced(rule: &MaskRule) -> bool
    ensures { result ≡ is_misplaced (rule_of rule.now) }
{
    is_telling_place(&rule.place) || renames(rule, rule) || recategorises(rule, rule)
}

// Returns the cause if the rule is rejected for it.
fn cause_if(is_rejected: bool, cause: RulesCause) -> Option<RulesCause>
    ensures { result ≡ cond is_rejected (Some cause) None }
{
    if is_rejected { Some(cause) } else { None }
}

fn is_name_among(name: &Option<String>, names: &[Option<String>]) -> bool
    ensures { result ≡ list_any
        (λ n. same_name (option_map string_bytes name.now) (option_map string_bytes n)) names.now }
{
    names
        .iter()
        .any(|other| same_name(text_of(name), text_of(other)))
}
