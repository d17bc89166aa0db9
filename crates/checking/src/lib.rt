// The card check, which comes first in put, clear, payload write and listing. What it asks is in tables/specs/Check.
// `inner` has the check as a refusal by value, the leaves for our own crates, and the public call, which is shown here.
#![tactic(auto)]

pub mod inner; // inner.rt: room, each table, the two beside each other, the entries

pub use inner::check;
