//! The interning tables that a command function uses if it is not passed any.
ghost use Rattle.std.specs.Prelude.{◌≡◌, ◌<◌, ◌^◌};
ghost use Rattle.dap_rename.specs.IndexNames.{index_limit, index_numbers};
ghost use Rattle.dap_rename.specs.Names.{AreEmpty};
ghost use Rattle.dap_rename.specs.Tables.{table_of};

use crate::{IndexNames, Tables};
use dap_tree::Sort;
use std::alloc::Global;
use std::hash::{BuildHasherDefault, FoldHasher};

/// The default hasher of an index set. It is not seeded.
type DefaultHasher = BuildHasherDefault<FoldHasher>;

/// Returns empty tables for all kinds of ids, each for at most `limit` numbers. Does not allocate.
pub fn index_tables(alloc: Global, limit: usize) -> Tables<IndexNames<DefaultHasher>>
    requires { limit < 2 ^ 31 }
    ensures empty { AreEmpty index_numbers result }
    ensures limits { (s : Sort) → index_limit (table_of result s) ≡ limit }
{
    IndexNames::tables(alloc, limit, BuildHasherDefault::new())
}
