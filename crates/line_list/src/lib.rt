//! A list in pieces, which the lists that are made from it share.
//!
//! A list is kept in pieces of at most 512 items, each behind a counted reference, and the items that were added last
//! behind these. A list that is made of runs of another one shares the pieces that lie within a run whole, and copies
//! the items of at most two. Small pieces that come to stand side by side are put together, so that a list has no more
//! pieces than its items need, however it was made. That pieces are shared, and time, no contract says.
#![tactic(auto)]

pub mod items;
pub mod list;
mod pieces;
pub mod share;

pub use items::Items;
pub use list::LineList;
pub use pieces::{MOST_IN_PIECE, MOST_ITEMS};
pub use share::{Share, Shared};
