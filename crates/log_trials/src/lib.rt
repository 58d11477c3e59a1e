//! Many cases for numbers in text, for logs and for what is printed of them: nothing here is part of the product.
#![tactic(auto)]

#[cfg(test)]
mod lines;
#[cfg(test)]
mod tally;
