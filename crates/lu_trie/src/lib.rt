//! Sets of serial histories.
//!
//! A [`Trie`] is such a set under any allocator: histories that begin alike share their first
//! nodes. A [`PackedTrie`] is the same set in flat vectors, for readers that come back millions of
//! times. Both are read through [`SerialTree`], place by place, without copies.
//!
//! ```text
//! let mut seen = Trie::new(alloc);
//! let fresh = seen.insert(&history)?;
//! let packed = PackedTrie::pack(alloc, &seen)?;
//! ```
#![tactic(auto)]

mod packed;
mod tree;
mod trie;

pub use packed::PackedTrie;
pub use tree::SerialTree;
pub use trie::Trie;
