//! What declarators declare: the scopes of names, types, and the rules of objects (C99 6.2.1 and 6.7.5).
#![tactic(auto)]

mod declarators;
mod scopes;

pub use declarators::{ObjectType, base_of, converted_value, declared_type, object_rule, shaped};
pub use scopes::{declare_local, is_declared, leave};
