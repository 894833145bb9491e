// What a run has come to.

/// The status of a run, and what the sinks have taken.
#[derive(Drop)]
pub struct Ending {
    pub status: u8,
    pub out: Vec<u8>,
    pub log: Vec<u8>,
}
