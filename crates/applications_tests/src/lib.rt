//! The applications on tables of commands.
#![tactic(auto)]

#[cfg(test)]
mod cases;
#[cfg(test)]
mod metre;
#[cfg(test)]
mod yarn;
