//! The ids of a message.
ghost use Rattle.std.specs.Prelude.{◌≡◌};

use dap_tree::Sort;

/// The ids of a message in the order of its canonical content, in which members are sorted by the
/// bytes of their names.
#[derive(Drop)]
pub struct IdList {
    ids: Vec<(Sort, i64)>,
}

impl IdList {
    ghost use Rattle.dap_message.specs.Message.{list_of_ids};

    pub(crate) fn new(ids: Vec<(Sort, i64)>) -> IdList
        ensures { list_of_ids result ≡ ids.items }
    {
        IdList { ids }
    }

    /// Returns the kind and the number of each id. Does not allocate.
    pub fn as_slice(&self) -> &[(Sort, i64)]
        ensures { result.now ≡ list_of_ids self.now }
    {
        self.ids.as_slice()
    }
}
