//! Tests of the board and of checks by many workers, and of reports, specifications and campaigns.
#![tactic(auto)]

#[cfg(test)]
mod boards;
#[cfg(test)]
mod campaigns;
#[cfg(test)]
mod certificates;
#[cfg(test)]
mod checks;
#[cfg(test)]
mod reports;
#[cfg(test)]
mod specifications;
