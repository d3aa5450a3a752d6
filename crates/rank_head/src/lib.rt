//! The head of a report and a certificate: what can be seen of the two without any data.
//!
//! A caller that merges reports and certificates of parts tests them by it. So does a caller that checks them in
//! pieces. The crate promises that a head has no error if and only if the head is right.
#![tactic(auto)]

mod fault;
mod head;
mod laws;
mod lines;
mod rows;

pub use fault::HeadFault;
pub use head::check_head;
pub use laws::heads_are_right;
