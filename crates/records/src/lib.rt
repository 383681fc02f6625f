// Claim sheets as records: how they are read and chained, and what is asked of the head, of each window and of each row by
// itself.
#![tactic(auto)]

mod bytes;
mod chain;
mod entry;
mod head;
mod record;
mod row;
mod scene;
mod window;

pub use bytes::record_count;
pub use chain::{Chain, Link};
pub use entry::Entry;
pub use head::{Head, is_whole};
pub use record::{Judged, Record, Records, read_record, walk};
pub use row::{Pointers, Row};
pub use scene::{Candidate, Scene};
pub use window::Window;
