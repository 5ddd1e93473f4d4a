// Lists of steps, sound and damaged, with what their replay must return.
#![tactic(auto)]

#[cfg(test)]
mod steps;
#[cfg(test)]
mod tests;
