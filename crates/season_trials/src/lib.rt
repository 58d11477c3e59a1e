//! Many cases for logs of seasons and for their books: nothing here is part of the product.
#![tactic(auto)]

#[cfg(test)]
mod lines;
#[cfg(test)]
mod old_fault;
