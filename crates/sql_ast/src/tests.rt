//! Statements may be lent to threads.

use crate::{Catalog, SqlExpr, SqlTy, Stmt};

fn is_shared<T: Send + Sync>() {}

#[test]
fn statements_are_lent_to_threads() {
    is_shared::<SqlTy>();
    is_shared::<SqlExpr>();
    is_shared::<Stmt>();
    is_shared::<Catalog>();
}
