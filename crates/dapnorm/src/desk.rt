//! The devices of a run.
ghost use Rattle.std.specs.Prelude.{◌≡◌};
ghost use Rattle.dapnorm.specs.Desks.{empty};

/// The devices that a run opened, as it left them.
#[derive(Drop)]
pub struct Desk<I, O, T> {
    /// The input, or that of A.
    pub a: Option<I>,
    /// The input of B.
    pub b: Option<I>,
    /// The output, unless it is a file that is replaced.
    pub output: Option<O>,
    /// The file that is replaced, or the golden file.
    pub target: Option<T>,
}

impl<I, O, T> Desk<I, O, T> {
    /// Returns a desk without devices.
    pub(crate) fn new() -> Desk<I, O, T>
        ensures { result ≡ empty }
    {
        Desk {
            a: None,
            b: None,
            output: None,
            target: None,
        }
    }
}
