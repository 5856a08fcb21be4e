//! Tests of a class account on figures worked by other means: the edges of every range, every refusal with the account left as it was,
//! worked closings, the calendar of filings, and orders of calls.
#![tactic(auto)]

#[cfg(test)]
mod bills;
#[cfg(test)]
mod closings;
#[cfg(test)]
mod common;
#[cfg(test)]
mod costs;
#[cfg(test)]
mod filings;
#[cfg(test)]
mod opening;
#[cfg(test)]
mod orders;
#[cfg(test)]
mod terms;
