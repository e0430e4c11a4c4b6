//! Tests of the reader of raw bit images: images that the netpbm tools made, and each fault where it can stand.
#![tactic(auto)]

#[cfg(test)]
mod faults;
#[cfg(test)]
mod images;
#[cfg(test)]
mod limits;
#[cfg(test)]
mod piles;
#[cfg(test)]
mod support;
