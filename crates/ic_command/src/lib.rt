//! What the lines of a session ask for: words, the commands that they make, the names of marks, and questions; and what is wrong
//! with a line that asks for nothing.
#![tactic(auto)]

pub mod asked;
pub mod command;
pub mod endings;
pub mod help;
pub mod laws;
pub mod line_form;
pub mod lines;
pub mod listed;
pub mod mark_name;
pub mod place;
pub mod question;
pub mod request;
pub mod topic;
pub mod words;
pub mod wrong_words;

pub use asked::{Asked, asked_of};
pub use command::{Command, MAX_COMMAND};
pub use endings::{is_new, is_quit};
pub use help::HELP;
pub use lines::{Input, IoFault, Output, Piece, write_reply};
pub use listed::listed_of;
pub use mark_name::MarkName;
pub use place::Place;
pub use question::{Question, question_of};
pub use request::Request;
pub use topic::{Topic, topic_of};
pub use wrong_words::wrong_in;
