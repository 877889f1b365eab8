//! Laws of the actions on one text. Each function does nothing: a call of it gives its clauses
//! to a proof.
ghost use Rattle.dap_words.specs.TextLaws.{LongAre, LongTwice, LongUtf8, UuidsAre, UuidTwice};
ghost use Rattle.dap_words.specs.TextLaws.{UuidUtf8, DigitsAfterLong, LongAfterDigits};
ghost use Rattle.dap_words.specs.TextLaws.{LongAfterHex, UuidAfterHex, UuidAfterLong, ReplacedIs};
ghost use Rattle.dap_words.specs.TextLaws.{ReplacedIsOne, ReplacedUtf8, ReplacedTwice, TwoMachines};
ghost use Rattle.dap_words.specs.TextLaws.{TwoWordLists, DigitsThenUuid, HexThenDigits};
ghost use Rattle.dap_words.specs.TextLaws.{HexThenLong, HexThenUuid, LongThenUuid, UuidThenDigits};

/// The results of `long` are defined by a relation. A second pass changes nothing, and UTF-8 stays
/// UTF-8.
pub fn long_runs()
    ensures are { LongAre }
    ensures twice { LongTwice }
    ensures utf8 { LongUtf8 }
{}

/// The results of `uuid` are defined by a relation. A second pass changes nothing, and UTF-8 stays
/// UTF-8.
pub fn uuids()
    ensures are { UuidsAre }
    ensures twice { UuidTwice }
    ensures utf8 { UuidUtf8 }
{}

/// Two actions at one place, in order: if the first leaves a text unchanged, then it leaves the
/// result of the second unchanged too. So a second pass of both changes nothing.
pub fn one_after_another()
    ensures digits_long { DigitsAfterLong }
    ensures long_digits { LongAfterDigits }
    ensures long_hex { LongAfterHex }
    ensures uuid_hex { UuidAfterHex }
    ensures uuid_long { UuidAfterLong }
{}

/// Pairs of actions at one place, in order, that do not stay settled: there is a text that the
/// first leaves unchanged although it changes the result of the second.
pub fn not_one_after_another()
    ensures digits_uuid { DigitsThenUuid }
    ensures hex_digits { HexThenDigits }
    ensures hex_long { HexThenLong }
    ensures hex_uuid { HexThenUuid }
    ensures long_uuid { LongThenUuid }
    ensures uuid_digits { UuidThenDigits }
{}

/// The results of `replace_words` are defined by a relation. UTF-8 stays UTF-8.
pub fn words()
    ensures is { ReplacedIs }
    ensures is_one { ReplacedIsOne }
    ensures utf8 { ReplacedUtf8 }
{}

/// If no word meets a text, a second pass changes nothing.
pub fn replaced_once()
    ensures { ReplacedTwice }
{}

/// Texts of two machines that differ only in texts of each machine become equal with equal words.
pub fn two_machines()
    ensures one_text { TwoMachines }
    ensures texts { TwoWordLists }
{}
