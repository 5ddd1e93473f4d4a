// Examples for each refusal of the building calls, and for what they return.
#![tactic(auto)]

#[cfg(test)]
mod cases;
#[cfg(test)]
mod limits;
#[cfg(test)]
mod tests;
