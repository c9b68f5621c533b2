// What the table keeps of each point.
use crate::roles::Role;
use dk_base::{List, PointId, VarInfo};
use dk_decl::PointDecl;
use std::rc::Rc;

// A declaration with the role, the base variables and the entry of its point, and whether its variables have bare names; its implicit exit
// has its variables and entry too.
#[derive(Drop)]
pub struct Own {
    pub(crate) decl: PointDecl,
    pub(crate) role: Role,
    pub(crate) vars: List<VarInfo>,
    pub(crate) entry: Option<PointId>,
    pub(crate) is_bare: bool,
}

// A point: its declaration, or the one that made it as its implicit exit; and the declared edges that it keeps, by their places.
#[derive(Drop)]
pub struct KeptPoint {
    pub(crate) own: Rc<Own>,
    pub(crate) is_implicit: bool,
    pub(crate) kept: List<u64>,
}
