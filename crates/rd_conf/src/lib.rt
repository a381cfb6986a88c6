// Settings: what a settings file says, or its first fault.
#![tactic(auto)]

mod defaults;
mod key;
mod lists;
mod read;
mod rows;
mod settings;
mod texts;
mod unknown;

pub use defaults::default_settings;
pub use key::Key;
pub use read::read_settings;
pub use settings::{DialectName, Ports, Settings, SettingsFail};

#[cfg(test)]
mod list_tests;
#[cfg(test)]
mod tests;
#[cfg(test)]
mod value_tests;
