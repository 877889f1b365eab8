//! The rules of a mask and an index of them.
ghost use Rattle.std.specs.Prelude.{◌≡◌, ◌≢◌, ◌≤◌, Ok, Err, map, option_map, string_bytes, ◌<◌};
ghost use Rattle.std.specs.Prelude.{IfOk, IfErr, length, true};
ghost use Rattle.dap_profile.specs.declared.profile.Kind.TheVariants.{Request, Response, Event};
ghost use Rattle.dap_mask.specs.{Index.IsIndex, ListedRules.listed_changes};

use crate::categories::CategoryRule;
use crate::declarations::Declaration;
use crate::fault::{RulesCause, RulesFault};
use crate::fills::FillRule;
use crate::index::KindRules;
use crate::joining::Joining;
use crate::omissions::Omission;
use crate::rule_list::RuleList;
use crate::rules::MaskRule;
use dap_message::{Kind, SwapRule};
use dap_words::Words;
use std::alloc::{AllocError, Global};

/// The rules of a mask.
///
/// The place of a rule is never the message itself, its `type`, `command`, `event` or `success`, or
/// an id that the profile renames. No rule changes `body` or `body.category` of events to which it
/// or another rule applies by their category, and none changes `body.category` of `output` events
/// if [`MaskRules::joining`] is not `None`. Masking a masked message again does not change it, if
/// its members are in order. The places of declared ids have the same restrictions. The place of a
/// rule that omits elements ends in their name.
#[derive(Drop)]
pub struct MaskRules {
    list: RuleList,
    requests: KindRules,
    responses: KindRules,
    events: KindRules,
    ghost requests_found: { IsIndex Request (listed_changes list) requests },
    ghost responses_found: { IsIndex Response (listed_changes list) responses },
    ghost events_found: { IsIndex Event (listed_changes list) events },
}

impl MaskRules {
    ghost use Rattle.dap_mask.specs.Index.{positions};
    ghost use Rattle.dap_mask.specs.KeptRules.{mask_of, changes_of, dropped_of, categories_of_mask};
    ghost use Rattle.dap_mask.specs.KeptRules.{swaps_of_mask, per_stop_of, joining_of};
    ghost use Rattle.dap_mask.specs.KeptRules.{words_of_mask, fills_of_mask, declared_of_mask};
    ghost use Rattle.dap_mask.specs.Declarations.{declarations_of, are_declared};
    ghost use Rattle.dap_mask.specs.{Categories.categories_of, ListedRules.listed_mask};
    ghost use Rattle.dap_mask.specs.{Fills.fills_of};
    ghost use Rattle.dap_mask.specs.{KeptRules.omissions_of_mask, Omissions.omissions_of};
    ghost use Rattle.dap_mask.specs.{Mask.no_rules, Rules.rules_of, RulesFile.rules_said};
    ghost use Rattle.dap_words.specs.Kept.{pairs_in};
    ghost use Rattle.dap_message.specs.SwapRules.{swaps_of};

    /// Reads the rules of a file.
    ///
    /// A line contains a rule or nothing; `#` starts a comment. The error is that of the first line
    /// that is rejected. `Memory` is returned only for a file that is not too long and contains a
    /// rule or a line that is rejected. Its line number has no meaning.
    pub fn read(alloc: Global, text: &[u8]) -> Result<MaskRules, RulesFault>
        ensures ok { IfOk result (λ r. rules_said text.now ≡ Ok (mask_of r)) }
        ensures err { IfErr result
            (λ f. f.cause ≢ RulesCause.Memory → rules_said text.now ≡ Err f) }
        ensures memory { IfErr result
            (λ f. f.cause ≡ RulesCause.Memory → length text.now ≤ 65536) }
        ensures needed { IfErr result
            (λ f. f.cause ≡ RulesCause.Memory → rules_said text.now ≢ Ok no_rules) }
    {
        let list = RuleList::read(alloc, text)?;
        match MaskRules::new(alloc, list) {
            Ok(rules) => Ok(rules),
            Err(_) => Err(RulesFault {
                line: 1,
                cause: RulesCause::Memory,
            }),
        }
    }

    fn new(alloc: Global, list: RuleList) -> Result<MaskRules, AllocError>
        ensures mask { IfOk result (λ r. mask_of r ≡ listed_mask list) }
        ensures memory { IfErr result (λ _. 0 < length (listed_changes list)) }
    {
        let requests = KindRules::new(alloc, &list, Kind::Request)?;
        let responses = KindRules::new(alloc, &list, Kind::Response)?;
        let events = KindRules::new(alloc, &list, Kind::Event)?;
        Ok(MaskRules {
            list,
            requests,
            responses,
            events,
        })
    }

    /// Returns the changes, in the order in which they apply.
    pub fn changes(&self) -> &[MaskRule]
        ensures { rules_of result.now ≡ changes_of self.now }
    {
        self.list.changes()
    }

    /// Returns the names of the events that are dropped in each category. `None` is any name.
    pub fn dropped(&self) -> &[Option<String>]
        ensures { map (option_map string_bytes) result.now ≡ dropped_of self.now }
    {
        self.list.dropped.as_slice()
    }

    /// Returns the rules that drop the events of one category.
    pub fn categories(&self) -> &[CategoryRule]
        ensures { categories_of result.now ≡ categories_of_mask self.now }
    {
        self.list.categories.as_slice()
    }

    /// Returns the rules for the order of messages, in the order of the file. Masking does not use
    /// them.
    pub fn swaps(&self) -> &[SwapRule]
        ensures { swaps_of result.now ≡ swaps_of_mask self.now }
    {
        self.list.swaps.as_slice()
    }

    /// Returns whether the file has the line `per-stop`: ids are numbered again from each stop.
    /// Masking does not use it.
    pub fn per_stop(&self) -> bool
        ensures { result ≡ per_stop_of self.now }
    {
        self.list.per_stop
    }

    /// Returns how the line `join event output` joins output, or `None` if the file has no such
    /// line. The line joins the `output` events of each category, in the whole recording or between
    /// two `stopped` events, before the other rules apply. `dap_join` applies it. Masking does not
    /// use it.
    pub fn joining(&self) -> Option<Joining>
        ensures { result ≡ joining_of self.now }
    {
        self.list.joining
    }

    /// Returns the words that are put in the place of texts before the changes apply.
    pub fn words(&self) -> &Words
        ensures { pairs_in result.now ≡ words_of_mask self.now }
    {
        &self.list.words
    }

    /// Returns the rules that declare ids, in the order of the file. `dap_naming` replaces the ids
    /// by names, after all other rules. Masking does not use them.
    pub fn declared(&self) -> &[Declaration]
        ensures same { declarations_of result.now ≡ declared_of_mask self.now }
        ensures declared { are_declared (declarations_of result.now) ≡ true }
    {
        self.list.declared.as_slice()
    }

    /// Returns the rules that set members before the other rules apply, in the order of the file.
    pub fn fills(&self) -> &[FillRule]
        ensures { fills_of result.now ≡ fills_of_mask self.now }
    {
        self.list.fills.as_slice()
    }

    /// Returns the rules that omit elements after the changes, in the order of the file.
    pub fn omissions(&self) -> &[Omission]
        ensures { omissions_of result.now ≡ omissions_of_mask self.now }
    {
        self.list.omissions.as_slice()
    }

    /// Returns the positions of the changes that may apply to messages of this kind and name, in
    /// order. `None` is a name that no rule contains.
    pub(crate) fn places<'a>(&'a self, kind: Kind, name: Option<&str>) -> &'a [usize]
        ensures { result.now
            ≡ positions kind (option_map (λ s. s.now) name.entry) (changes_of self.now) }
    {
        match kind {
            Kind::Request => self.requests.places(name),
            Kind::Response => self.responses.places(name),
            Kind::Event => self.events.places(name),
        }
    }
}
