// Images written, read and damaged.
#![tactic(auto)]

#[cfg(test)]
mod layers;
#[cfg(test)]
mod samples;
#[cfg(test)]
mod tests;
