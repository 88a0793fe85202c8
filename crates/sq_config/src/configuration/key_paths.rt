ghost use Rattle.std.specs.Prelude.{◌≡◌, IfOk};
ghost use Rattle.sq_config.specs.KeyPaths;

use itoa::Buffer;
use sq_base::Name;
use std::alloc::{AllocError, Global};

/// The path of a key in the object at a path.
pub fn key_in(alloc: Global, at: &str, key: &str) -> Result<Name, AllocError>
    ensures { IfOk result (λ path. path ≡ KeyPaths.key_in at.now key.now) }
{
    if at.is_empty() {
        return Name::new(alloc, key);
    }
    let mut path = String::from_str(alloc, at)?;
    path.push_str(".")?;
    path.push_str(key)?;
    Ok(Name::from_string(path))
}

/// The path of an item in the list at a path.
pub fn item_in(alloc: Global, at: &str, index: usize) -> Result<Name, AllocError>
    ensures { IfOk result (λ path. path ≡ KeyPaths.item_in at.now index) }
{
    let mut buffer = Buffer::new();
    let mut path = String::from_str(alloc, at)?;
    path.push_str("[")?;
    path.push_str(buffer.format(index))?;
    path.push_str("]")?;
    Ok(Name::from_string(path))
}
