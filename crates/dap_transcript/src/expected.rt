//! Computes the sequence numbers that are expected.
ghost use Rattle.std.specs.Prelude.{◌≡◌, ℤ, ◌++◌, ◌∷◌, List, []};
ghost use Rattle.dap_message.specs.Message.{Sent};
ghost use Rattle.dap_session.specs.Messages as words;
ghost use Rattle.dap_transcript.specs.Expected.{expected_seq, number_after};
ghost use Rattle.dap_transcript.specs.Numbers.{Counts, CountsSides, next_after};

use dap_tree::Side;

/// The numbers of the messages of one side so far.
#[derive(Clone, Copy, Drop)]
pub(crate) struct Numbers {
    last: Option<i64>,
    next: i64,
}

fn number_after(number: i64) -> i64
    ensures { result ≡ number_after number }
{
    if number == i64::MAX {
        number
    } else {
        number + 1
    }
}

fn next_after(last: Option<i64>, number: i64) -> i64
    ensures { result ≡ next_after last number }
{
    match last {
        None => number_after(number),
        Some(old) => {
            if old == number {
                number
            } else {
                number_after(number)
            }
        }
    }
}

impl Numbers {
    fn new() -> Numbers
        ensures { Counts result [] }
    {
        Numbers {
            last: None,
            next: 1,
        }
    }

    fn after(self, number: i64) -> Numbers
        ensures { (ns : List ℤ) → Counts self ns → Counts result (ns ++ number ∷ []) }
    {
        Numbers {
            last: Some(number),
            next: next_after(self.last, number),
        }
    }
}

/// The numbers of the messages of both sides so far.
#[derive(Clone, Copy, Drop)]
pub(crate) struct SideNumbers {
    client: Numbers,
    adapter: Numbers,
}

impl SideNumbers {
    pub(crate) fn new() -> SideNumbers
        ensures { CountsSides result [] }
    {
        SideNumbers {
            client: Numbers::new(),
            adapter: Numbers::new(),
        }
    }

    /// Returns the `seq` that is expected of the next message of a side.
    pub(crate) fn expected(self, side: Side) -> i64
        ensures { (ms : List Sent) → CountsSides self ms → result ≡ expected_seq ms side }
    {
        match side {
            Side::Client => self.client.next,
            Side::Adapter => self.adapter.next,
        }
    }

    /// Returns the numbers after a message of this side with this `seq`.
    pub(crate) fn after(self, side: Side, seq: i64) -> SideNumbers
        ensures { (ms : List Sent) (m : Sent) → CountsSides self ms → side ≡ words.side_of m
            → seq ≡ words.seq_of m → CountsSides result (ms ++ m ∷ []) }
    {
        match side {
            Side::Client => {
                SideNumbers {
                    client: self.client.after(seq),
                    adapter: self.adapter,
                }
            }
            Side::Adapter => {
                SideNumbers {
                    client: self.client,
                    adapter: self.adapter.after(seq),
                }
            }
        }
    }
}
