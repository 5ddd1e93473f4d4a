// Small catalogues, with their exposures and listings.
#![tactic(auto)]

#[cfg(test)]
mod tests;
