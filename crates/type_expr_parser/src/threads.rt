//! Workers may share and hand over what is read, and why it wasn't.
use crate::{ExprErr, Parsed, Unread};
use hdr_core::crosses_threads;

fn errors_cross() {
    crosses_threads::<ExprErr>();
    crosses_threads::<Unread>();
}

// What is read crosses where its tree does.
fn parsed_crosses<T: Sync + Send>() {
    crosses_threads::<Parsed<T>>();
}
