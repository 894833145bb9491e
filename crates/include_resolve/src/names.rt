// The names under which a file is looked for.
ghost use Rattle.std.specs.Prelude.{◌≡◌, ◌++◌, ◌∷◌, [], IfOk, IfErr, map, option_to_list, string_bytes};
ghost use Rattle.std.specs.Option.{option_copied};
ghost use Rattle.tptp_base.specs.Quotable.{IsQuotable};
ghost use Rattle.include_resolve.specs.Names as spec;

use crate::IncludeFault;
use memchr::memrchr;
use std::alloc::Global;
use tptp_base::Include;

/// The names that are tried in turn: one, and another where there is one.
#[derive(Drop)]
pub struct Names {
    pub first: String,
    pub other: Option<String>,
}

/// The name that an include has for its file. A name that a text spells is of ASCII bytes, so it is a text itself.
pub fn written_name(include: &Include) -> &str
    requires { IsQuotable include.now.file }
    ensures { result.now ≡ include.now.file }
{
    match std::str::from_utf8(include.file.as_slice()) {
        Ok(name) => name,
        Err(_) => unreachable!(),
    }
}

/// The names for a name that is written in the file `from`.
pub fn tried_names(
    alloc: Global,
    from: &str,
    root: Option<&str>,
    name: &str,
) -> Result<Names, IncludeFault>
    ensures names { IfOk result (λ names. string_bytes names.first ∷ map string_bytes (option_to_list names.other)
        ≡ spec.tried_names from.now (option_copied root.entry) name.now) }
    ensures err { IfErr result (λ fault. fault ≡ IncludeFault.Memory) }
{
    if is_absolute(name) {
        return Ok(Names {
            first: String::from_str(alloc, name)?,
            other: None,
        });
    }
    let first = joined(alloc, directory(from), name)?;
    let other = rooted(alloc, root, name)?;
    Ok(Names { first, other })
}

// Whether a name begins with `/`.
fn is_absolute(name: &str) -> bool
    ensures { result ≡ spec.is_absolute name.now }
{
    match name.as_bytes() {
        [] => false,
        [byte, ..] => *byte == b'/',
    }
}

// A name through its last `/`.
fn directory(name: &str) -> &str
    ensures { result.now ≡ spec.directory name.now }
{
    match memrchr(b'/', name.as_bytes()) {
        Some(at) => &name[..at + 1],
        None => "",
    }
}

// The root, `/` and the name, where a root is given.
fn rooted(alloc: Global, root: Option<&str>, name: &str) -> Result<Option<String>, IncludeFault>
    ensures ok { IfOk result (λ other. map string_bytes (option_to_list other)
        ≡ spec.rooted (option_copied root.entry) name.now) }
    ensures err { IfErr result (λ fault. fault ≡ IncludeFault.Memory) }
{
    match root {
        Some(root) => {
            let folder = joined(alloc, root, "/")?;
            Ok(Some(joined(alloc, folder.as_str(), name)?))
        }
        None => Ok(None),
    }
}

// Two pieces of a name, one behind the other.
fn joined(alloc: Global, front: &str, back: &str) -> Result<String, IncludeFault>
    ensures ok { IfOk result (λ name. string_bytes name ≡ front.now ++ back.now) }
    ensures err { IfErr result (λ fault. fault ≡ IncludeFault.Memory) }
{
    let mut name = String::from_str(alloc, front)?;
    name.push_str(back)?;
    Ok(name)
}
