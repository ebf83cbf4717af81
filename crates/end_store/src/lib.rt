//! The keys at a key manager that wait for their applications, and the record of which application has got which key.
#![tactic(auto)]

mod index_entries;
mod marks;
mod pool;
mod pools;
mod ready_counts;
mod stock_counts;
mod stocks;
mod store;
mod waiting_keys;

pub use marks::Marks;
pub use pool::{Line, Pool};
pub use store::EndStore;
