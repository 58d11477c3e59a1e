//! Slips brought to sheets, and sheets as large as they come: nothing here is part of the product.
#![tactic(auto)]

#[cfg(test)]
mod large;
#[cfg(test)]
mod reading;
#[cfg(test)]
mod slips;
