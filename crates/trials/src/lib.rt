//! Many cases for the lower layers, and a kind written by someone else: nothing here is part of the
//! product.
#![tactic(auto)]

#[cfg(test)]
mod layers;
mod notch;
#[cfg(test)]
mod numbering;
mod worked;

pub use notch::Notch;
