// What values are called.

// A value's id, and whether it is a signed word.
#[derive(Clone, Copy)]
pub struct Name {
    pub id: u64,
    pub signed: bool,
}
