// What is found of blocks.
use dk_base::{PointId, View};
use dk_decl::PointDecl;

/// What a block that was read comes to.
#[derive(Drop)]
pub enum Found<'a> {
    /// It adds nothing: it has header lines alone, lists implementors, or is of an exit without an entry, where those are left out.
    Nothing,
    /// A declaration, whose block begins at this line. What it does to the table is still to be done.
    Declaration {
        line: u64,
        decl: PointDecl,
    },
    /// A record, which begins at this line: the point has a sample more, with these values of its base variables.
    Sample {
        point: PointId,
        line: u64,
        values: &'a [View<'a>],
    },
}
