use ic_command::{Question, Request};

/// What a line of a session asks for.
#[derive(Drop)]
pub enum Demand {
    /// What any session is asked for.
    Requests(Request),
    /// What one is asked that explains itself.
    Asks(Question),
}
