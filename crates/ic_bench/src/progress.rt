use ic_command::write_reply;
use ic_session::Gate;

/// How many events are fired between two notes of a reduction's progress.
const STEP: u64 = 65_536;

/// A gate that says on standard error how far a long reduction is.
#[derive(Drop)]
pub struct Progress<'a> {
    pub rt: &'a HostRuntime,
}

impl Gate for Progress<'_> {
    fn before_commit(&self, _worker: usize, _ticket: u64) {}

    /// Says how many events there were, each so many. If that can't be written, it is left out.
    fn after_commit(&self, _worker: usize, ticket: u64) {
        let made = ticket.saturating_add(1);
        if made % STEP != 0 {
            return;
        }
        if let Ok(note) = format!(in self.rt.alloc(); "reduced {} so far\n", made) {
            let _ = write_reply(&mut self.rt.stderr(), note.as_bytes());
        }
    }
}
