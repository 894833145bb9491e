use crate::keys::Keys;

/// What an index keeps of a term that was added: the place that it was added for, its sign and its keys.
#[derive(Clone, Copy)]
pub struct Entry {
    pub place: u32,
    pub positive: bool,
    pub keys: Keys,
}
