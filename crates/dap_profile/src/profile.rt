//! The profile: the members of a message that are checked, as a flat table of numbered rows.
ghost use Rattle.std.specs.Prelude.{◌≡◌, map};
ghost use Rattle.dap_profile.specs.Profile.{kind_name, kind_named, profile, want_word, wants_id};
ghost use Rattle.dap_profile.specs.ProfileRows.{row_of};

/// The kind of a message (DAP specification, `ProtocolMessage.type`).
#[derive(Clone, Copy, Debug, PartialEq, Eq, Drop)]
pub enum Kind {
    Request,
    Response,
    Event,
}

impl Kind {
    /// Returns the `type` of a message of the kind.
    pub fn word(self) -> &'static str
        ensures { result.now ≡ kind_name self }
    {
        match self {
            Kind::Request => "request",
            Kind::Response => "response",
            Kind::Event => "event",
        }
    }

    /// Returns the kind of the messages with this `type`.
    pub fn named(word: &str) -> Option<Kind>
        ensures { result ≡ kind_named word.now }
    {
        match word {
            "request" => Some(Kind::Request),
            "response" => Some(Kind::Response),
            "event" => Some(Kind::Event),
            _ => None,
        }
    }
}

/// The type that a row expects at its path.
///
/// The variants after `List` expect an integer from -2^63 to 2^63-1, which is an id.
#[derive(Clone, Copy, Debug, PartialEq, Eq, Drop)]
pub enum Want {
    Bool,
    /// An integer of any size.
    Whole,
    Text,
    Object,
    List,
    /// A sequence number of the side that sent the message.
    OwnSeq,
    /// A sequence number of the other side.
    OtherSeq,
    /// The id of a stack frame.
    Frame,
    /// A variables reference. 0 refers to nothing and is not an id.
    Reference,
    /// The id of a thread. 0 is an id too.
    Thread,
    /// The id of a breakpoint. 0 is an id too.
    Breakpoint,
}

impl Want {
    /// Returns whether the row expects an id.
    pub fn is_id(self) -> bool
        ensures { result ≡ wants_id self }
    {
        match self {
            Want::Bool | Want::Whole | Want::Text | Want::Object | Want::List => false,
            _ => true,
        }
    }

    /// Returns the name of the type in JSON Schema, or the word for what an id numbers.
    pub fn word(self) -> &'static str
        ensures { result.now ≡ want_word self }
    {
        match self {
            Want::Bool => "boolean",
            Want::Whole => "integer",
            Want::Text => "string",
            Want::Object => "object",
            Want::List => "array",
            Want::OwnSeq => "own-seq",
            Want::OtherSeq => "other-seq",
            Want::Frame => "frame",
            Want::Reference => "reference",
            Want::Thread => "thread",
            Want::Breakpoint => "breakpoint",
        }
    }
}

/// The path of a row in a message, by the names of its members.
#[derive(Clone, Copy, Debug, PartialEq, Eq, Drop)]
pub enum Place {
    /// `a`: a member of the message.
    Member(&'static str),
    /// `a.b`: a member of a member.
    Inner(&'static str, &'static str),
    /// `a.b[]`: each element of an array.
    Element(&'static str, &'static str),
    /// `a.b[].c`: a member of each element of an array.
    Part(&'static str, &'static str, &'static str),
    /// `a.b.c`: a member of a member of a member.
    Deep(&'static str, &'static str, &'static str),
}

/// A row of the profile.
///
/// A message satisfies a row if each parent on the path that exists and is an object (or an array)
/// has a value of the expected type there. If the row is not required, the value may be missing or
/// null. A row with a name applies to the requests with that command, to the successful responses
/// to it, or to the events with that name.
#[derive(Clone, Copy, Debug, PartialEq, Eq, Drop)]
pub struct Row {
    /// Counted from 1. `MessageFault` has this number.
    pub number: u16,
    /// The kind of the messages that the row applies to; all kinds, if `None`.
    pub kind: Option<Kind>,
    /// The command or the name of the event; all names, if `None`.
    pub name: Option<&'static str>,
    /// The path of the value.
    pub place: Place,
    /// The expected type.
    pub want: Want,
    /// Whether the value is required: it may be neither missing nor null.
    pub needed: bool,
}

macro_rules! kind {
    (every) => {
        None
    };
    (request) => {
        Some(Kind::Request)
    };
    (response) => {
        Some(Kind::Response)
    };
    (event) => {
        Some(Kind::Event)
    };
}

macro_rules! name {
    () => {
        None
    };
    ($name:literal) => {
        Some($name)
    };
}

macro_rules! is_needed {
    (needed) => {
        true
    };
    (optional) => {
        false
    };
}

macro_rules! profile_rows {
    ($(
        $number:literal $kind:ident $(($name:literal))? $place:ident($($part:literal),+)
        $want:ident $needed:ident;
    )*) => {
        [$(Row {
            number: $number,
            kind: kind!($kind),
            name: name!($($name)?),
            place: Place::$place($($part),+),
            want: Want::$want,
            needed: is_needed!($needed),
        }),*]
    };
}

/// The rows, in the order of their numbers.
///
/// The members and their types are those of the protocol's schema, restricted to what this project
/// reads. Which of them are required is this project's choice. Each line is a row: number,
/// messages, path, expected type, and whether the value is required.
pub static PROFILE: [Row; 188] = profile_rows! {
    1 every Member("seq") OwnSeq needed;
    2 request Member("command") Text needed;
    3 event Member("event") Text needed;
    4 response Member("request_seq") OtherSeq needed;
    5 response Member("success") Bool needed;
    6 response Member("command") Text needed;
    7 response Member("message") Text optional;
    8 request("initialize") Member("arguments") Object needed;
    9 request("initialize") Inner("arguments", "adapterID") Text needed;
    10 request("launch") Member("arguments") Object optional;
    11 request("launch") Inner("arguments", "noDebug") Bool optional;
    12 request("setBreakpoints") Member("arguments") Object needed;
    13 request("setBreakpoints") Inner("arguments", "source") Object needed;
    14 request("setBreakpoints") Inner("arguments", "breakpoints") List optional;
    15 request("setBreakpoints") Element("arguments", "breakpoints") Object needed;
    16 request("setBreakpoints") Part("arguments", "breakpoints", "line") Whole needed;
    17 request("stackTrace") Member("arguments") Object needed;
    18 request("stackTrace") Inner("arguments", "startFrame") Whole optional;
    19 request("stackTrace") Inner("arguments", "levels") Whole optional;
    20 request("scopes") Member("arguments") Object needed;
    21 request("scopes") Inner("arguments", "frameId") Frame needed;
    22 request("variables") Member("arguments") Object needed;
    23 request("variables") Inner("arguments", "variablesReference") Reference needed;
    24 request("variables") Inner("arguments", "start") Whole optional;
    25 request("variables") Inner("arguments", "count") Whole optional;
    26 request("setVariable") Member("arguments") Object needed;
    27 request("setVariable") Inner("arguments", "variablesReference") Reference needed;
    28 request("setVariable") Inner("arguments", "name") Text needed;
    29 request("setVariable") Inner("arguments", "value") Text needed;
    30 request("evaluate") Member("arguments") Object needed;
    31 request("evaluate") Inner("arguments", "expression") Text needed;
    32 request("evaluate") Inner("arguments", "frameId") Frame optional;
    33 request("evaluate") Inner("arguments", "context") Text optional;
    34 request("completions") Member("arguments") Object needed;
    35 request("completions") Inner("arguments", "frameId") Frame optional;
    36 request("setExpression") Member("arguments") Object needed;
    37 request("setExpression") Inner("arguments", "frameId") Frame optional;
    38 request("dataBreakpointInfo") Member("arguments") Object needed;
    39 request("dataBreakpointInfo") Inner("arguments", "frameId") Frame optional;
    40 request("dataBreakpointInfo") Inner("arguments", "variablesReference") Reference optional;
    41 request("restartFrame") Member("arguments") Object needed;
    42 request("restartFrame") Inner("arguments", "frameId") Frame needed;
    43 request("stepInTargets") Member("arguments") Object needed;
    44 request("stepInTargets") Inner("arguments", "frameId") Frame needed;
    45 request("disconnect") Member("arguments") Object optional;
    46 request("disconnect") Inner("arguments", "restart") Bool optional;
    47 request("disconnect") Inner("arguments", "terminateDebuggee") Bool optional;
    48 request("cancel") Member("arguments") Object optional;
    49 request("cancel") Inner("arguments", "requestId") OwnSeq optional;
    50 response("initialize") Member("body") Object optional;
    51 response("setBreakpoints") Member("body") Object needed;
    52 response("setBreakpoints") Inner("body", "breakpoints") List needed;
    53 response("setBreakpoints") Element("body", "breakpoints") Object needed;
    54 response("setBreakpoints") Part("body", "breakpoints", "verified") Bool needed;
    55 response("threads") Member("body") Object needed;
    56 response("threads") Inner("body", "threads") List needed;
    57 response("threads") Element("body", "threads") Object needed;
    58 response("threads") Part("body", "threads", "name") Text needed;
    59 response("stackTrace") Member("body") Object needed;
    60 response("stackTrace") Inner("body", "stackFrames") List needed;
    61 response("stackTrace") Element("body", "stackFrames") Object needed;
    62 response("stackTrace") Part("body", "stackFrames", "id") Frame needed;
    63 response("stackTrace") Part("body", "stackFrames", "name") Text needed;
    64 response("stackTrace") Part("body", "stackFrames", "line") Whole needed;
    65 response("stackTrace") Part("body", "stackFrames", "column") Whole needed;
    66 response("stackTrace") Inner("body", "totalFrames") Whole optional;
    67 response("scopes") Member("body") Object needed;
    68 response("scopes") Inner("body", "scopes") List needed;
    69 response("scopes") Element("body", "scopes") Object needed;
    70 response("scopes") Part("body", "scopes", "name") Text needed;
    71 response("scopes") Part("body", "scopes", "variablesReference") Reference needed;
    72 response("variables") Member("body") Object needed;
    73 response("variables") Inner("body", "variables") List needed;
    74 response("variables") Element("body", "variables") Object needed;
    75 response("variables") Part("body", "variables", "name") Text needed;
    76 response("variables") Part("body", "variables", "value") Text needed;
    77 response("variables") Part("body", "variables", "variablesReference") Reference needed;
    78 response("evaluate") Member("body") Object needed;
    79 response("evaluate") Inner("body", "result") Text needed;
    80 response("evaluate") Inner("body", "variablesReference") Reference needed;
    81 response("setVariable") Member("body") Object needed;
    82 response("setVariable") Inner("body", "value") Text needed;
    83 response("setVariable") Inner("body", "variablesReference") Reference optional;
    84 response("setExpression") Member("body") Object needed;
    85 response("setExpression") Inner("body", "variablesReference") Reference optional;
    86 response("continue") Member("body") Object optional;
    87 response("continue") Inner("body", "allThreadsContinued") Bool optional;
    88 event("stopped") Member("body") Object needed;
    89 event("stopped") Inner("body", "reason") Text needed;
    90 event("stopped") Inner("body", "allThreadsStopped") Bool optional;
    91 event("continued") Member("body") Object optional;
    92 event("continued") Inner("body", "allThreadsContinued") Bool optional;
    93 event("output") Member("body") Object needed;
    94 event("output") Inner("body", "output") Text needed;
    95 event("output") Inner("body", "category") Text optional;
    96 event("output") Inner("body", "variablesReference") Reference optional;
    97 event("exited") Member("body") Object optional;
    98 event("exited") Inner("body", "exitCode") Whole optional;
    99 event("thread") Member("body") Object optional;
    100 event("thread") Inner("body", "reason") Text optional;
    101 event("invalidated") Member("body") Object optional;
    102 event("invalidated") Inner("body", "stackFrameId") Frame optional;
    103 event("progressStart") Member("body") Object optional;
    104 event("progressStart") Inner("body", "requestId") OtherSeq optional;
    105 response("initialize") Inner("body", "supportSuspendDebuggee") Bool optional;
    106 response("initialize") Inner("body", "supportTerminateDebuggee") Bool optional;
    107 response("initialize") Inner("body", "supportsBreakpointLocationsRequest") Bool optional;
    108 response("initialize") Inner("body", "supportsCancelRequest") Bool optional;
    109 response("initialize") Inner("body", "supportsClipboardContext") Bool optional;
    110 response("initialize") Inner("body", "supportsCompletionsRequest") Bool optional;
    111 response("initialize") Inner("body", "supportsConditionalBreakpoints") Bool optional;
    112 response("initialize") Inner("body", "supportsConfigurationDoneRequest") Bool optional;
    113 response("initialize") Inner("body", "supportsDataBreakpoints") Bool optional;
    114 response("initialize") Inner("body", "supportsDelayedStackTraceLoading") Bool optional;
    115 response("initialize") Inner("body", "supportsDisassembleRequest") Bool optional;
    116 response("initialize") Inner("body", "supportsEvaluateForHovers") Bool optional;
    117 response("initialize") Inner("body", "supportsExceptionFilterOptions") Bool optional;
    118 response("initialize") Inner("body", "supportsExceptionInfoRequest") Bool optional;
    119 response("initialize") Inner("body", "supportsExceptionOptions") Bool optional;
    120 response("initialize") Inner("body", "supportsFunctionBreakpoints") Bool optional;
    121 response("initialize") Inner("body", "supportsGotoTargetsRequest") Bool optional;
    122 response("initialize") Inner("body", "supportsHitConditionalBreakpoints") Bool optional;
    123 response("initialize") Inner("body", "supportsInstructionBreakpoints") Bool optional;
    124 response("initialize") Inner("body", "supportsLoadedSourcesRequest") Bool optional;
    125 response("initialize") Inner("body", "supportsLogPoints") Bool optional;
    126 response("initialize") Inner("body", "supportsModulesRequest") Bool optional;
    127 response("initialize") Inner("body", "supportsReadMemoryRequest") Bool optional;
    128 response("initialize") Inner("body", "supportsRestartFrame") Bool optional;
    129 response("initialize") Inner("body", "supportsRestartRequest") Bool optional;
    130 response("initialize") Inner("body", "supportsSetExpression") Bool optional;
    131 response("initialize") Inner("body", "supportsSetVariable") Bool optional;
    132 response("initialize") Inner("body", "supportsSingleThreadExecutionRequests") Bool optional;
    133 response("initialize") Inner("body", "supportsStepBack") Bool optional;
    134 response("initialize") Inner("body", "supportsStepInTargetsRequest") Bool optional;
    135 response("initialize") Inner("body", "supportsSteppingGranularity") Bool optional;
    136 response("initialize") Inner("body", "supportsTerminateRequest") Bool optional;
    137 response("initialize") Inner("body", "supportsTerminateThreadsRequest") Bool optional;
    138 response("initialize") Inner("body", "supportsValueFormattingOptions") Bool optional;
    139 response("initialize") Inner("body", "supportsWriteMemoryRequest") Bool optional;
    140 response("threads") Part("body", "threads", "id") Thread needed;
    141 request("stackTrace") Inner("arguments", "threadId") Thread needed;
    142 request("continue") Member("arguments") Object needed;
    143 request("continue") Inner("arguments", "threadId") Thread needed;
    144 request("next") Member("arguments") Object needed;
    145 request("next") Inner("arguments", "threadId") Thread needed;
    146 request("stepIn") Member("arguments") Object needed;
    147 request("stepIn") Inner("arguments", "threadId") Thread needed;
    148 request("stepOut") Member("arguments") Object needed;
    149 request("stepOut") Inner("arguments", "threadId") Thread needed;
    150 request("pause") Member("arguments") Object needed;
    151 request("pause") Inner("arguments", "threadId") Thread needed;
    152 event("stopped") Inner("body", "threadId") Thread optional;
    153 event("continued") Inner("body", "threadId") Thread optional;
    154 event("thread") Inner("body", "threadId") Thread optional;
    155 event("invalidated") Inner("body", "threadId") Thread optional;
    156 request("stepBack") Member("arguments") Object optional;
    157 request("stepBack") Inner("arguments", "threadId") Thread optional;
    158 request("reverseContinue") Member("arguments") Object optional;
    159 request("reverseContinue") Inner("arguments", "threadId") Thread optional;
    160 request("goto") Member("arguments") Object optional;
    161 request("goto") Inner("arguments", "threadId") Thread optional;
    162 request("exceptionInfo") Member("arguments") Object optional;
    163 request("exceptionInfo") Inner("arguments", "threadId") Thread optional;
    164 request("terminateThreads") Member("arguments") Object optional;
    165 request("terminateThreads") Inner("arguments", "threadIds") List optional;
    166 request("terminateThreads") Element("arguments", "threadIds") Thread needed;
    167 response("setBreakpoints") Part("body", "breakpoints", "id") Breakpoint optional;
    168 event("stopped") Inner("body", "hitBreakpointIds") List optional;
    169 event("stopped") Element("body", "hitBreakpointIds") Breakpoint needed;
    170 event("breakpoint") Member("body") Object optional;
    171 event("breakpoint") Inner("body", "breakpoint") Object optional;
    172 event("breakpoint") Deep("body", "breakpoint", "id") Breakpoint optional;
    173 response("setFunctionBreakpoints") Member("body") Object optional;
    174 response("setFunctionBreakpoints") Inner("body", "breakpoints") List optional;
    175 response("setFunctionBreakpoints") Element("body", "breakpoints") Object needed;
    176 response("setFunctionBreakpoints") Part("body", "breakpoints", "id") Breakpoint optional;
    177 response("setDataBreakpoints") Member("body") Object optional;
    178 response("setDataBreakpoints") Inner("body", "breakpoints") List optional;
    179 response("setDataBreakpoints") Element("body", "breakpoints") Object needed;
    180 response("setDataBreakpoints") Part("body", "breakpoints", "id") Breakpoint optional;
    181 response("setInstructionBreakpoints") Member("body") Object optional;
    182 response("setInstructionBreakpoints") Inner("body", "breakpoints") List optional;
    183 response("setInstructionBreakpoints") Element("body", "breakpoints") Object needed;
    184 response("setInstructionBreakpoints") Part("body", "breakpoints", "id") Breakpoint optional;
    185 response("setExceptionBreakpoints") Member("body") Object optional;
    186 response("setExceptionBreakpoints") Inner("body", "breakpoints") List optional;
    187 response("setExceptionBreakpoints") Element("body", "breakpoints") Object needed;
    188 response("setExceptionBreakpoints") Part("body", "breakpoints", "id") Breakpoint optional;
};

/// Returns the rows of the table, in the order of their numbers.
pub fn profile_rows() -> &'static [Row; 188]
    ensures { map row_of result.now ≡ profile }
{
    &PROFILE
}
