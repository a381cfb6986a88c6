// Rows of the operator's pages, over a keeper in memory and one in a database. Tests alone.
#![tactic(auto)]

#[cfg(test)]
mod asking;
#[cfg(test)]
mod pages;
