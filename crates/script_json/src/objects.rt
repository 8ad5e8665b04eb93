//! Objects that say their kind.
ghost use Rattle.std.specs.Prelude.{◌≡◌, IfOk, codes};
ghost use Rattle.serde_json.specs.Data.{no_members, object, put, string};
ghost use Rattle.serde_json.specs.View.{view};

use serde_json::{Value, json};
use std::alloc::{AllocError, Global};

/// An object that says its kind, and one thing more.
pub(crate) fn told(alloc: Global, kind: &str, key: &str, value: Value) -> Result<Value, AllocError>
    ensures { IfOk result (λ v. view v ≡ object (put key.now (view value) (put (codes "kind") (string kind.now) no_members))) }
{
    json!(in alloc; {"kind": kind, key: value})
}

/// The same of a text.
pub(crate) fn told_text(
    alloc: Global,
    kind: &str,
    key: &str,
    text: &str,
) -> Result<Value, AllocError>
    ensures { IfOk result (λ v. view v ≡ object (put key.now (string text.now) (put (codes "kind") (string kind.now) no_members))) }
{
    told(alloc, kind, key, Value::try_from_str(alloc, text)?)
}

/// An object that says its kind.
pub(crate) fn told_kind(alloc: Global, kind: &str) -> Result<Value, AllocError>
    ensures { IfOk result (λ v. view v ≡ object (put (codes "kind") (string kind.now) no_members)) }
{
    json!(in alloc; {"kind": kind})
}
