ghost use Rattle.std.specs.Prelude.{◌≡◌, IfOk};

use hdr_core::{Memory, Text};
use std::alloc::Global;

/// A constant (JVMS 4.4.3 to 4.4.5).
#[derive(Drop)]
pub enum Value {
    Integer(i32),
    Long(i64),
    /// The bits of a float.
    Raw32(u32),
    /// The bits of a double.
    Raw64(u64),
    Str(Text),
}

impl Value {
    pub fn copy(&self, alloc: Global) -> Result<Value, Memory>
        ensures { IfOk result (λ copy. copy ≡ self.now) }
    {
        match self {
            Value::Integer(number) => Ok(Value::Integer(*number)),
            Value::Long(number) => Ok(Value::Long(*number)),
            Value::Raw32(bits) => Ok(Value::Raw32(*bits)),
            Value::Raw64(bits) => Ok(Value::Raw64(*bits)),
            Value::Str(text) => Ok(Value::Str(text.copy(alloc)?)),
        }
    }
}
