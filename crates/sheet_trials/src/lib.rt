//! Many cases for sheets and ledgers: nothing here is part of the product.
#![tactic(auto)]

#[cfg(test)]
mod cases;
#[cfg(test)]
mod comparing;
#[cfg(test)]
mod seasons;
mod worked;
