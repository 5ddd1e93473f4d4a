// The laboratory with proposals and without, and what two of its accounts come to.
#![tactic(auto)]

#[cfg(test)]
mod samples;
#[cfg(test)]
mod tests;
