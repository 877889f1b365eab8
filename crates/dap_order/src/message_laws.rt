//! Theorems about swaps of free neighbours, for all lists of messages. Each function is empty:
//! calling it makes its clauses available to the caller's proof.
ghost use Rattle.dap_order.specs.MessageLaws.{FreeInWords, FreeBothWays, SwapsKeepRules};
ghost use Rattle.dap_order.specs.MessageLaws.{SwapsKeepOpen, OrderIsReached, OneOrder, OneOrdered};
ghost use Rattle.dap_order.specs.MessageLaws.{OrderedAgain, OrderBegins, UnnamedParts};
ghost use Rattle.dap_order.specs.MessageLaws.{OrderKeepsRules};
ghost use Rattle.dap_order.specs.MessageLaws.{OrderOfRenamed, OneOrderButIds, SameOrders};
ghost use Rattle.dap_order.specs.MessageLaws.{OneNormalForm};

/// States which messages are free with each other.
pub fn free_messages()
    ensures words { FreeInWords }
    ensures both_ways { FreeBothWays }
{}

/// States that swaps of free neighbours violate no session rule, and do not change the number of
/// unanswered requests.
pub fn swaps_keep_rules()
    ensures kept { SwapsKeepRules }
    ensures open { SwapsKeepOpen }
{}

/// States that swaps lead from every list to exactly one list that is in order. It starts with the
/// message that has the least key of all that are free with all messages before them, and so on. It
/// obeys the session rules if and only if the first list does.
pub fn one_order_of_messages()
    ensures reached { OrderIsReached }
    ensures one { OneOrder }
    ensures only { OneOrdered }
    ensures again { OrderedAgain }
    ensures begins { OrderBegins }
    ensures parts { UnnamedParts }
    ensures kept { OrderKeepsRules }
{}

/// States that messages can be renamed before or after they are ordered. Therefore two lists are
/// the same except for ids and the order of free messages if and only if their orders are the same
/// except for ids.
pub fn order_of_renamed_messages()
    ensures order { OrderOfRenamed }
    ensures same { OneOrderButIds }
    ensures whole { SameOrders }
    ensures normal { OneNormalForm }
{}
