//! Workers may share and hand over the values of each type: each is one of these, or a part of
//! one.
use crate::{Expr, Unit};
use hdr_core::crosses_threads;

fn units_cross() {
    crosses_threads::<Unit>();
}

fn expressions_cross() {
    crosses_threads::<Expr>();
}
