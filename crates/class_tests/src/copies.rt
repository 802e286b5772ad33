//! Copies, of which each contract says that they equal their source.
use crate::building::{annotation, constant, list, none, one};
use class_desc::{Ann, Attr, ClassAnns, Deprecations, Value};
use class_reader::read_class;
use hdr_core::List;
use std::process::Abort;

/// A class with each kind of attribute and of value.
const EVERYTHING: &[u8] =
    b"\xca\xfe\xba\xbe\0\0\0=\0.\x01\0\x01A\x07\0\x01\x01\0\x10java/lang/Object\x07\0\x03\x01\
    \0\x01I\x07\0\x05\x01\0\x01f\x01\0\x01J\x01\0\x0dConstantValue\x05\0\0\0\0\0\0\0\x05\x01\
    \0\x01m\x01\0\x03()V\x01\0\x09Synthetic\x01\0\x0aExceptions\x01\0\x01E\x07\0\x10\x01\0\
    \x11AnnotationDefault\x05\xff\xff\xff\xff\xff\xff\xff\xff\x06\x7f\xf8\0\0\0\0\0\x01\x03\
    \xff\xff\xff\xff\x04\x7f\xc0\0\x01\x01\0\x03LE;\x01\0\x01F\x01\0\x01V\x01\0\x01v\x01\0\
    \x10MethodParameters\x01\0\x22RuntimeVisibleParameterAnnotations\x01\0\x01t\x01\0$Runtim\
    eInvisibleParameterAnnotations\x01\0\x09Signature\x01\0\x03LB;\x01\0\x0aDeprecated\x01\0\
    \x0cInnerClasses\x01\0\x03A$B\x07\0%\x01\0\x01B\x01\0\x06Record\x01\0\x01c\x01\0\x19Runt\
    imeVisibleAnnotations\x01\0\x13PermittedSubclasses\x07\0'\x01\0\x1bRuntimeInvisibleAnnot\
    ations\0!\0\x02\0\x04\0\x01\0\x06\0\x01\0\x19\0\x07\0\x08\0\x01\0\x09\0\0\0\x02\0\x0a\0\
    \x01\0\x01\0\x0c\0\x0d\0\x06\0\x0e\0\0\0\0\0\x0f\0\0\0\x04\0\x01\0\x11\0\x12\0\0\0![\0\
    \x07J\0\x13D\0\x15I\0\x17F\0\x18e\0\x19\0\x1ac\0\x1b@\0\x19\0\x01\0\x1c[\0\0\0\x1d\0\0\0\
    \x05\x01\0\0\x80\0\0\x1e\0\0\0\x0e\x02\0\x01\0\x19\0\x01\0\x1cs\0\x1f\0\0\0 \0\0\0\x01\0\
    \0\x07\0!\0\0\0\x02\0\x22\0#\0\0\0\0\0$\0\0\0\x0a\0\x01\0&\0\x02\0'\0\x09\0(\0\0\0\x19\0\
    \x01\0)\0\x05\0\x01\0*\0\0\0\x0b\0\x01\0\x19\0\x01\0\x1cs\0\x1f\0+\0\0\0\x04\0\x01\0,\0*\
    \0\0\0\x0b\0\x01\0\x19\0\x01\0\x1cs\0\x1f\0-\0\0\0\x0b\0\x01\0\x19\0\x01\0\x1cs\0\x1f";

fn are_copied<R: Abort + AllocGlobal>(rt: &R, attributes: &List<Attr>) -> usize {
    let mut copied = 0usize;
    for attribute in attributes.items() {
        assert!(rt; attribute.copy(rt.alloc()).is_ok());
        copied = copied.saturating_add(1);
    }
    copied
}

#[test]
fn copies_a_class_and_each_attribute(rt: HostRuntime) {
    let class = read_class(rt.alloc(), EVERYTHING).expect(&rt, "a class");
    assert!(rt; class.copy(rt.alloc()).is_ok());
    let mut copied = are_copied(&rt, &class.attrs);
    for field in class.fields.items() {
        copied = copied.saturating_add(are_copied(&rt, &field.attrs));
    }
    for method in class.methods.items() {
        copied = copied.saturating_add(are_copied(&rt, &method.attrs));
    }
    assert_eq!(rt; copied, 14);
}

fn annotations<R: Abort + AllocGlobal>(rt: &R) -> List<Ann> {
    let desc = annotation(rt, none(rt));
    one(
        rt,
        Ann {
            visible: true,
            desc,
        },
    )
}

fn annotation_lists<R: Abort + AllocGlobal>(rt: &R) -> List<List<Ann>> {
    list(rt, [annotations(rt), none(rt)])
}

#[test]
fn copies_the_annotations_of_a_class(rt: HostRuntime) {
    let annotations = ClassAnns {
        own: annotations(&rt),
        fields: annotation_lists(&rt),
        methods: annotation_lists(&rt),
        formals: one(&rt, annotation_lists(&rt)),
        components: annotation_lists(&rt),
        defaults: list(&rt, [None, Some(constant(b'J', Value::Long(7)))]),
        deprecated: Deprecations {
            own: true,
            fields: list(&rt, [false, true]),
            methods: list(&rt, [true, false]),
        },
    };
    assert!(rt; annotations.copy(rt.alloc()).is_ok());
}
