//! The two branches of an `if`.
use c_tree::Stmt;
use sqlite_items::Boxed;

/// What stands behind the condition of an `if`.
#[derive(Drop)]
pub(crate) struct Branches {
    pub body: Boxed<Stmt>,
    pub other: Option<Boxed<Stmt>>,
}
