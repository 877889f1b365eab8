//! The kinds of ids.
ghost use Rattle.std.specs.Prelude.{◌≡◌};
ghost use Rattle.dap_tree.specs.Sorts.{sort_word};

/// The kind of an id: a number that one side assigns and that later messages refer to.
///
/// Ids of different kinds are unrelated, even if their numbers are equal. Pairs of ids are ordered
/// by these variants.
#[derive(Clone, Copy, Debug, PartialEq, Eq, PartialOrd, Ord)]
pub enum Sort {
    /// The `seq` of a message of the client, and the `request_seq` of the response to it.
    ClientSeq,
    /// The `seq` of a message of the adapter, and the `request_seq` of the response to it.
    AdapterSeq,
    /// The adapter's number for a stack frame, valid until the debuggee continues.
    Frame,
    /// The adapter's number for variables that the client can request, valid until the debuggee
    /// continues.
    Reference,
    /// The adapter's number for a thread of the debuggee. Zero is a valid id.
    Thread,
    /// The adapter's number for a breakpoint. Zero is a valid id.
    Breakpoint,
}

/// All kinds of ids, in the order of the variants.
pub const SORTS: [Sort; 6] = [
    Sort::ClientSeq,
    Sort::AdapterSeq,
    Sort::Frame,
    Sort::Reference,
    Sort::Thread,
    Sort::Breakpoint,
];

impl Sort {
    /// Returns the name of the kind in output: lower case, with hyphens.
    pub fn word(self) -> &'static str
        ensures { result.now ≡ sort_word self }
    {
        match self {
            Sort::ClientSeq => "client-seq",
            Sort::AdapterSeq => "adapter-seq",
            Sort::Frame => "frame",
            Sort::Reference => "reference",
            Sort::Thread => "thread",
            Sort::Breakpoint => "breakpoint",
        }
    }
}
