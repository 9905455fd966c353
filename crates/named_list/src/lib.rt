//! A list of values by name, in the order in which the names were put. Removing a value leaves a
//! gap, where there is room for one.
#![tactic(auto)]

mod iter;
mod list;
mod slot;

pub use iter::Iter;
pub use list::NamedList;
