//! Laws of words in messages. Each function does nothing: a call of it gives its clauses to a
//! proof.
ghost use Rattle.dap_words.specs.Laws.{WordedByPath, KeepsKind, NoWords, WordedTwice, KeepsIds};
ghost use Rattle.dap_words.specs.Laws.{KeepsSound, KeepsOrder, KeepsUtf8, TwoMachines};

/// Only strings outside `type`, `command` and `event` of the message change, by the words. Names of
/// members, ids and the structure are unchanged, and the message can be written as before.
pub fn only_strings()
    ensures paths { WordedByPath }
    ensures kind { KeepsKind }
    ensures none { NoWords }
    ensures ids { KeepsIds }
    ensures sound { KeepsSound }
    ensures ordered { KeepsOrder }
    ensures utf8 { KeepsUtf8 }
{}

/// If no word meets a text, a second pass changes nothing.
pub fn worded_once()
    ensures { WordedTwice }
{}

/// Messages of two machines that differ only in texts of each machine become equal with equal
/// words.
pub fn two_machines()
    ensures { TwoMachines }
{}
