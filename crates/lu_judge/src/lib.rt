//! Histories that remember which histories were good.
//!
//! A walk over schedules comes to few histories many times. A [`Trail`] is its history, kept as a
//! number among the beginnings of histories that were met, so a history that comes again is found
//! to be good without a search for its witnesses.
//!
//! ```text
//! let mut trail = Trail::new(alloc, &tree)?;
//! trail.push(Event::Call { t: 0, k: 0 });
//! trail.push(Event::Return { t: 0, k: 0, outcome: Outcome::Ret(1) });
//! let verdict = trail.judge(&mut cache)?;
//! trail.pop();
//! ```
#![tactic(auto)]

mod events;
mod path;
mod trail;
mod uses;

pub use trail::Trail;
