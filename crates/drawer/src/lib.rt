// The drawer: records read and written, the check, search, the record's own bytes, and filing.
#![tactic(auto)]

mod check;
mod fields;
mod file;
mod records;
mod refusal;
mod search;
mod table;
mod write;

pub use check::check_drawer;
pub use fields::{Layout, RecordFault};
pub use file::file_layout;
pub use records::{Found, Records};
pub use refusal::DrawerRefusal;
pub use search::{found, search_drawer};
pub use table::{Entry, read_table};
