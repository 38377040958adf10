// Frames against values that were computed outside of this repository, by long division of the message
// by the polynomial.
#![tactic(auto)]

#[cfg(test)]
mod replies;
#[cfg(test)]
mod requests;
