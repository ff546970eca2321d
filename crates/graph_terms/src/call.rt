//! Operations whose bodies are the host's own.

use crate::lists::{AccessList, NumberList};
use crate::name::Name;
use index_spaces::NoMemory;
use std::alloc::Global;
use std::marker::Model;

/// A call: the word by which the host knows the body, the values that it is given, and what it reads
/// and writes. It takes one place in memory, so that a line without a call stays small.
#[derive(Drop)]
pub struct Call {
    parts: Box<CallParts>,
}

/// What a call is made of. The column of an access is the number of one of data.
#[derive(Drop)]
pub struct CallParts {
    pub word: Name,
    pub values: NumberList,
    pub accesses: AccessList,
}

impl Model for Call {
    ghost use Rattle.graph_terms.specs.declared.call.CallParts.{CallParts};

    ghost Value = { CallParts };

    ghost view = { λ a. a.parts.value };
}

impl Call {
    ghost use Rattle.std.specs.Prelude.{◌≡◌, IfOk};

    /// The call of these parts.
    pub fn new(alloc: Global, parts: CallParts) -> Result<Call, NoMemory>
        ensures { IfOk result (λ call. call ≡ parts) }
    {
        match Box::new(alloc, parts) {
            Ok(parts) => Ok(Call { parts }),
            Err(_) => Err(NoMemory),
        }
    }

    /// The word by which the host knows its body.
    pub fn word(&self) -> &Name
        ensures { result.now ≡ self.now.word }
    {
        &self.parts.word
    }

    /// What the body is given, in order.
    pub fn values(&self) -> &NumberList
        ensures { result.now ≡ self.now.values }
    {
        &self.parts.values
    }

    /// What the body reads and writes, in order.
    pub fn accesses(&self) -> &AccessList
        ensures { result.now ≡ self.now.accesses }
    {
        &self.parts.accesses
    }
}
