use pw_base::bytes::Bytes;
use pw_data::layout::Layout;
use pw_forms::statement::Procedure;

/// The program of a server. Its name is in upper case.
#[derive(Drop)]
pub struct Server {
    pub name: Bytes,
    /// The items of working storage.
    pub layout: Layout,
    pub procedure: Procedure,
}
