// The clock, the flag and the stopper of the edge. Tests alone.
#![tactic(auto)]

#[cfg(test)]
mod edge;
