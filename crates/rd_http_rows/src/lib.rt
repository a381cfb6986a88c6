// HTTP as a dialect: its tokens, and what each copy is sent. Tests alone.
#![tactic(auto)]

#[cfg(test)]
mod copies;
#[cfg(test)]
mod tokens;
