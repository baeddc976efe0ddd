use pw_base::bytes::Bytes;
use pw_base::list::List;
use pw_code::field::ScreenTable;
use pw_data::layout::Layout;
use pw_forms::statement::Procedure;

/// The program of a requester. Names are in upper case.
#[derive(Drop)]
pub struct Requester {
    pub name: Bytes,
    /// The items of working storage and linkage.
    pub layout: Layout,
    /// The screens in their order.
    pub screens: List<ScreenTable>,
    /// The names of USING in their order, each that of an item of LINKAGE SECTION. A name may stand
    /// there more than once.
    pub using: List<Bytes>,
    pub procedure: Procedure,
}
