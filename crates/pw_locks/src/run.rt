use pw_base::bytes::Bytes;

/// The locks on one span: its high end, and their numbers. Its low end is the key that the run is filed under.
#[derive(Debug, Drop)]
pub struct SpanLocks {
    pub high: Option<Bytes>,
    pub numbers: Vec<u64>,
}
