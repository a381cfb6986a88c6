// Rows of kept notes over files. Tests alone.
#![tactic(auto)]

#[cfg(test)]
mod stores;
