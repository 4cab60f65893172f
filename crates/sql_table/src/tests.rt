//! Tables and scopes may be lent to threads.

use crate::{Cell, Frame, Row, Rows, Scope, Shared, Tables};

fn is_shared<T: Send + Sync>() {}

#[test]
fn tables_are_lent_to_threads() {
    is_shared::<Cell>();
    is_shared::<Row>();
    is_shared::<Rows>();
    is_shared::<Tables>();
    is_shared::<Frame>();
    is_shared::<Shared<Frame>>();
    is_shared::<Scope>();
}
