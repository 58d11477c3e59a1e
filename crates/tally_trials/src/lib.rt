//! Many cases for the tally: nothing here is part of the product.
#![tactic(auto)]

#[cfg(test)]
mod counting;
