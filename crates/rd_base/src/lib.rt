// Values that every layer speaks of, and the outside as traits.
#![tactic(auto)]

mod bytes;
mod clock;
mod mask;
mod mem_clock;
mod mem_files;
mod mem_sink;
mod mem_source;
mod mem_stopper;
mod names;
mod outside;
mod row;
mod rows;
mod sends;
mod session_note;
mod source;
mod stopper;
mod values;
mod verdict;
mod word_list;
mod words;

pub use bytes::{Bytes, NoMemory};
pub use clock::Clock;
pub use mask::Mask;
pub use mem_clock::MemClock;
pub use mem_files::MemFiles;
pub use mem_sink::{MemSink, PushFault};
pub use mem_source::MemSource;
pub use mem_stopper::MemStopper;
pub use names::{NameRules, Names};
pub use outside::{Failed, FileFail, Files, Sink};
pub use row::Row;
pub use rows::Rows;
pub use sends::{Send, Sends};
pub use session_note::{OperatorEnd, SessionNote};
pub use source::{Give, Source};
pub use stopper::Stopper;
pub use values::{
    Beside, Cursor, Ending, Happening, Limits, Link, MaskLimits, Note, Part, Phase, Scan, Side,
    TokenKind, TokenSpan, What, Which,
};
pub use verdict::Verdict;
pub use word_list::Words;
pub use words::{WordCut, cut_at, is_row_word, is_word, is_word_byte, word_len};
