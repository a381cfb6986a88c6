// Rows of running sessions over memory: sources that wait for what their link was sent, with real threads. Tests alone.
#![tactic(auto)]

#[cfg(test)]
mod books;
#[cfg(test)]
mod links;
#[cfg(test)]
mod pieces;
#[cfg(test)]
mod runs;
#[cfg(test)]
mod together;
#[cfg(test)]
mod troubles;
