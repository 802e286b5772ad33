/// Which kinds of files below its roots a command uses.
#[derive(Clone, Copy, PartialEq, Eq)]
pub enum FileKinds {
    /// Class files, those of modules among them.
    ClassesAndModules,
    /// Class files without those of modules.
    Classes,
}
