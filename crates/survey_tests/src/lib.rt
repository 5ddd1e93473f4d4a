// Small catalogues, with the rows and the steps that must be found in them.
#![tactic(auto)]

#[cfg(test)]
mod books;
#[cfg(test)]
mod questions;
#[cfg(test)]
mod reached;
#[cfg(test)]
mod refusals;
#[cfg(test)]
mod rules;
#[cfg(test)]
mod sessions;
