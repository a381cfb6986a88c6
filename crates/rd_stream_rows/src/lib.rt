// The streamed verdict beside the verdict of whole lists. Tests alone.
#![tactic(auto)]

#[cfg(test)]
mod verdicts;
