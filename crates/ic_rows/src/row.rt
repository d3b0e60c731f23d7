use ic_session::Status;

/// The stores over which a session is answered.
#[derive(Clone, Copy)]
pub enum Stores {
    /// The fast store alone.
    Fast,
    /// The fast store alone, by a session that explains itself.
    Explained,
    /// The fast store and the plain one.
    Both,
}

/// A line of the index.
#[derive(Drop)]
pub struct Row<'a> {
    /// The name of the session's files.
    pub name: &'a str,
    /// The workers of a `reduce`.
    pub workers: u8,
    /// The events that a `reduce` may fire.
    pub budget: u32,
    /// How the session ends.
    pub status: Status,
    /// The stores over which it is answered.
    pub stores: Stores,
}

/// The row of a line: its columns are divided by tabs, and the one after the stores says what the session shows.
pub fn row_of(line: &str) -> Option<Row<'_>> {
    let mut columns = line.split('\t');
    let name = columns.next()?;
    let workers = columns.next()?.parse::<u8>().ok()?;
    let budget = columns.next()?.parse::<u32>().ok()?;
    let status = status_of(columns.next()?)?;
    let stores = stores_of(columns.next()?)?;
    Some(Row {
        name,
        workers,
        budget,
        status,
        stores,
    })
}

/// A status, by the number with which the program ends.
fn status_of(column: &str) -> Option<Status> {
    match column {
        "0" => Some(Status::Ended),
        "2" => Some(Status::NetRefused),
        _ => None,
    }
}

/// The stores of this name.
fn stores_of(column: &str) -> Option<Stores> {
    match column {
        "fast" => Some(Stores::Fast),
        "explained" => Some(Stores::Explained),
        "both" => Some(Stores::Both),
        _ => None,
    }
}
