//! The line protocol of an ordered map: requests, read from lines, and replies, written as lines.
//!
//! A line is cut into words at each space, and a word has a byte that stands for no letter as `%` and
//! two hexadecimal digits.
#![tactic(auto)]

mod answer;
mod escape;
mod fault;
mod laws;
mod parts;
mod plain_line;
mod read;
mod reply_line;
mod request;
mod request_key;
mod scan;
mod scan_end;
mod value;
mod words;

pub use answer::{Answer, pair_text, reply_text, whole_line};
pub use escape::are_plain;
pub use fault::{Fault, RequestFault};
pub use laws::{escaped_words, one_line, request_again, unescape_again, worked_lines};
pub use line_reader::{Event, Lines, Taken, read_all};
pub use parts::MOST_SCANNED;
pub use plain_line::{PAIR_FRAME, put_pair};
pub use read::read_request;
pub use request::Request;
pub use request_key::RequestKey;
pub use scan_end::ScanEnd;
pub use value::Value;
