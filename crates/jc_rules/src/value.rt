//! The values that commands assign and insert.

ghost use Rattle.std.specs.Prelude.{◌≡◌, IfOk};

use crate::text::Text;
use std::alloc::AllocError;

/// A value. A number is the text of its literal; a string is decoded.
#[derive(Debug, PartialEq, Eq, Drop)]
pub enum Value {
    Number(Text),
    Str(Text),
    True,
    False,
    Null,
    EmptyMap,
    EmptyList,
}

impl Value {
    /// The same value once more.
    pub fn copy(&self) -> Result<Self, AllocError>
        ensures { IfOk result (λ value. value ≡ self.now) }
    {
        match self {
            Value::Number(text) => Ok(Value::Number(text.copy()?)),
            Value::Str(text) => Ok(Value::Str(text.copy()?)),
            Value::True => Ok(Value::True),
            Value::False => Ok(Value::False),
            Value::Null => Ok(Value::Null),
            Value::EmptyMap => Ok(Value::EmptyMap),
            Value::EmptyList => Ok(Value::EmptyList),
        }
    }
}
