//! Theorems about masked documents. Each function does nothing; calling it makes its clauses
//! available to a proof.
ghost use Rattle.dap_mask.specs.Grammar.{ParserFindsLine, LineSaysOne};
ghost use Rattle.dap_mask.specs.Laws.{MaskedByPath, OneMasked, KeepsOthers, NoneNew, DropsAlike};
ghost use Rattle.dap_mask.specs.Laws.{MaskedOnce, EqualWhereAgree, KeepsOrder, KeepsSound};
ghost use Rattle.dap_mask.specs.Laws.{InAnyOrder, FilledOnce, FillsKeepValues, RedactedOnce};
ghost use Rattle.dap_mask.specs.Laws.{FilledRedacted, RedactedStaysIn, OmittedInAnyOrder};
ghost use Rattle.dap_mask.specs.Laws.{EqualOutside, OmittedKeepsOrder, OmittedKeepsSound};
ghost use Rattle.dap_mask.specs.Laws.{OmittedKeepsUtf8};
ghost use Rattle.dap_mask.specs.Laws.{KeepsUtf8, StaysIn, DigitsAre, HexIs, PlainPlaces};
ghost use Rattle.dap_mask.specs.Loose.{UnmaskedIsRead, OneLooseReading, LooseIsOrdered, LeftIsRead};
ghost use Rattle.dap_mask.specs.{Ids.LeavesIds, WordLines.OneMoreLine};

/// The value at each path determines a masked document. Only the places of the rules change.
pub fn exactly_those_places()
    ensures paths { MaskedByPath }
    ensures one { OneMasked }
    ensures others { KeepsOthers }
    ensures none_new { NoneNew }
    ensures dropped { DropsAlike }
    ensures stays { StaysIn }
    ensures ordered { KeepsOrder }
    ensures sound { KeepsSound }
    ensures utf8 { KeepsUtf8 }
{}

/// Masking a masked document again does not change it, if its members are in order.
pub fn masked_once()
    ensures { MaskedOnce }
{}

/// Redacting a redacted document again does not change it, if its members are in order: neither the
/// changes, nor the rules that set members, nor those that omit elements. The order of the rules
/// that omit elements does not matter.
pub fn omitted_once()
    ensures redacted { RedactedOnce }
    ensures filled { FilledRedacted }
    ensures stays { RedactedStaysIn }
    ensures any_order { OmittedInAnyOrder }
    ensures equal { EqualOutside }
    ensures ordered { OmittedKeepsOrder }
    ensures sound { OmittedKeepsSound }
    ensures utf8 { OmittedKeepsUtf8 }
{}

/// Setting members keeps each value that is not null, and setting them again in a masked document
/// does not change it.
pub fn fills_keep_values()
    ensures values { FillsKeepValues }
    ensures once { FilledOnce }
{}

/// The order of the lines of a rules file does not matter: two lists of the same rules, in the
/// order in which they apply, mask each document alike, if its members are in order.
pub fn in_any_order()
    ensures { InAnyOrder }
{}

/// Masking two documents yields equal documents if and only if the two agree except for the parts
/// that the rules redact.
pub fn equal_where_they_agree()
    ensures { EqualWhereAgree }
{}

/// If a place selects no elements by their name, the names along a path do not matter, and a change
/// at the place is one at each path that matches it.
pub fn plain_places()
    ensures { PlainPlaces }
{}

/// `digits` and `hex` return the strings that their relations describe.
pub fn texts()
    ensures digits { DigitsAre }
    ensures hex { HexIs }
{}

/// Without rules, the result is the document that the content represents.
pub fn unmasked_is_read()
    ensures { UnmaskedIsRead }
{}

/// Each content represents at most one document, even if it contains non-integer numbers. The
/// members of its objects are in the byte order of their names. The text of the masked document is
/// read as the same document.
pub fn left_is_read()
    ensures one { OneLooseReading }
    ensures ordered { LooseIsOrdered }
    ensures left { LeftIsRead }
{}

/// If no rule has the place of an id, each id is unchanged or is removed with a value that contains
/// it.
pub fn leaves_ids()
    ensures { LeavesIds }
{}

/// The parser of a line of a rules file agrees with the grammar. Each line has exactly one meaning.
pub fn line_grammar()
    ensures parser { ParserFindsLine }
    ensures one { LineSaysOne }
{}

/// A line after a line feed is one more line of a rules file.
pub fn one_more_line()
    ensures { OneMoreLine }
{}
