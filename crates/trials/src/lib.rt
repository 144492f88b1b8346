//! Trials of the board's calls. Each list of calls must answer alike on byte memory and on word memory.
#![tactic(auto)]

#[cfg(test)]
mod arrivals;
#[cfg(test)]
mod frames;
#[cfg(test)]
mod layouts;
#[cfg(test)]
mod opening;
#[cfg(test)]
mod recognisers;
#[cfg(test)]
mod registers;
#[cfg(test)]
mod trial;
