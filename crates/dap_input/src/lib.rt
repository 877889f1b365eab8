//! Inputs that are validated record by record: reading records, limits, rejections, and the facts
//! about first rejections that hold for any kind of record.
#![tactic(auto)]

mod item_reader;
mod limits;
mod records;
mod refused;

pub use item_reader::{FedItem, ItemReader};
pub use limits::Limits;
pub use records::Records;
pub use refused::{PART, Refused, TEXT};
