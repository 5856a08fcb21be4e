//! Tests of the engine's layers on figures worked by other means: the edges of every range, every refusal with its place, worked sums.
#![tactic(auto)]

#[cfg(test)]
mod billing;
#[cfg(test)]
mod common;
#[cfg(test)]
mod periods;
#[cfg(test)]
mod reconciling;
#[cfg(test)]
mod rounds;
#[cfg(test)]
mod supplying;
