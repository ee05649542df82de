//! Sessions played frame by frame: the standard's scenarios, refusals, and what is told at the end.
#![tactic(auto)]

#[cfg(test)]
mod closing;
#[cfg(test)]
mod lent;
#[cfg(test)]
mod playing;
#[cfg(test)]
mod runs;
#[cfg(test)]
mod scenarios;
