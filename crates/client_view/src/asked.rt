use hdr_core::Text;

/// Who asks. A client is in a nest of its own (JVMS 4.7.28).
#[derive(Drop)]
pub struct Client {
    /// Its package, with `/` between the parts; empty for the unnamed one.
    pub package: Text,
    /// The binary name of its superclass.
    pub super_name: Option<Text>,
}

/// What annotations are asked of.
#[derive(Drop)]
pub enum Part {
    /// The class.
    Whole,
    /// The first field of the name that the class declares.
    FieldPart(Text),
    /// The first method of the name and descriptor that the class declares.
    MethodPart { name: Text, descriptor: Text },
}
