// The files that are open.
ghost use Rattle.std.specs.Prelude.{◌≡◌};
ghost use Rattle.include_resolve.specs.Names.{is_on};
ghost use Rattle.include_resolve.specs.code.Path.{path_names};

/// The names of the files that are open: none, or one inside the others.
#[derive(Clone, Copy)]
pub enum Path<'a> {
    Outside,
    Inside(&'a str, &'a Path<'a>),
}

/// Whether a file of this name is open.
#[tactic(auto, using(crate::proofs::PathFacts::path_equations))]
pub fn is_open(path: &Path<'_>, name: &str) -> bool
    ensures { result ≡ is_on (path_names path.now) name.now }
{
    match path {
        Path::Outside => false,
        Path::Inside(innermost, others) => *innermost == name || is_open(&*others, name),
    }
}
