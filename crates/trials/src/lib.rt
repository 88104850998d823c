// Trials of the calls where no run from an opening leads: rows that are unlawful. And that a specification is copied.
#![tactic(auto)]

#[cfg(test)]
mod tests;
