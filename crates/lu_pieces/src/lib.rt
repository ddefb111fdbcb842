//! The pieces into which the tree of schedules is cut.
//!
//! A piece at a depth is a schedule of this many moves, or an ended one of fewer; below it are the
//! schedules that begin with it. The frontier is all pieces at the greatest depth, up to the one
//! that is asked for and to the bound, at which there are at most 65,536, in order. It is a cover:
//! none of them begins with another, and each schedule that is ended within the bound or cut at it
//! begins with exactly one. So each piece can be searched by itself, and all together are the tree.
//!
//! ```text
//! let pieces = frontier(alloc, &component, &matrix, 40, 4)?;
//! ```
#![tactic(auto)]

mod pieces;

pub use pieces::{MOST_DEPTH, frontier};
