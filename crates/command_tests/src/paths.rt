use crate::building::words;
use std::alloc::Global;
use std::process::Abort;
use used_files::{FileKinds, used_paths};

/// Paths as they were listed below `in`.
const LISTED: &str = "in/b/C.class in/a.class in/b.class in/B.java in/META-INF/A.class \
    in/a/META-INF/x/A.class in/META-INF.class in/b/C.class in/a/.class in/module-info.class \
    in/b/module-info.class in/xmodule-info.class in/META-INF/module-info.class";

/// Those of them that are used, each with a space behind it.
const USED: &str = "in/META-INF.class in/a.class in/a/.class in/b.class in/b/C.class \
    in/b/module-info.class in/module-info.class in/xmodule-info.class ";

/// The same without descriptions of modules.
const CLASSES: &str =
    "in/META-INF.class in/a.class in/a/.class in/b.class in/b/C.class in/xmodule-info.class ";

fn used_line(rt: &impl Abort, alloc: Global, kinds: FileKinds) -> String {
    let listed = words(rt, alloc, LISTED);
    let used = used_paths(alloc, kinds, "in", listed).expect(rt, "memory");
    let mut told = String::new(alloc);
    for path in &used {
        told.push_str(path.as_str()).expect(rt, "memory");
        told.push_str(" ").expect(rt, "memory");
    }
    told
}

#[test]
fn uses_class_files_in_the_order_of_their_bytes(rt: HostRuntime) {
    let rows = [
        (FileKinds::ClassesAndModules, USED),
        (FileKinds::Classes, CLASSES),
    ];
    for (kinds, used) in rows {
        assert!(rt; used_line(&rt, rt.alloc(), kinds).as_str() == used);
    }
}
