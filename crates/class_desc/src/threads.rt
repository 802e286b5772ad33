//! Workers may share and hand over the values of each type: each is one of these, or a part of
//! one.
use crate::{ClassAnns, ClassDesc};
use hdr_core::crosses_threads;

fn values_cross() {
    crosses_threads::<ClassDesc>();
    crosses_threads::<ClassAnns>();
}
