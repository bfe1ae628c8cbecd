//! Examples of images, opened and refused.
#![tactic(auto)]

#[cfg(test)]
mod changes;
#[cfg(test)]
mod kinds_and_refusals;
#[cfg(test)]
mod refused_rules;
#[cfg(test)]
mod refused_tables;
#[cfg(test)]
mod signals;
#[cfg(test)]
mod tables;
