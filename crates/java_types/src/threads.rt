//! Workers may share and hand over the values of each type: each is one of these, or a part of
//! one.
use crate::JSig;
use hdr_core::crosses_threads;

fn values_cross() {
    crosses_threads::<JSig>();
}
