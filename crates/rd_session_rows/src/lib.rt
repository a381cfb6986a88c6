// Rows of whole sessions on both cores, over plain lines and over the small dialect that has what lines lack.
#![tactic(auto)]

#[cfg(test)]
mod calls;
#[cfg(test)]
mod clients;
#[cfg(test)]
mod runs;
#[cfg(test)]
mod steps;
