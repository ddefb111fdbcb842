//! Hostile use of lineup: texts that are cut off, bent and torn, devices that fail, and checks of
//! texts by a call.
#![tactic(auto)]

#[cfg(test)]
mod bent;
#[cfg(test)]
mod checked;
#[cfg(test)]
mod devices;
#[cfg(test)]
mod texts;
