// Elements that stand as arguments.
ghost use Rattle.std.specs.Prelude.{◌≡◌, length, slice_get};
ghost use Rattle.fi_model.specs.Sentences as spec;

use crate::sentence::Element;
use crate::terms::element;
use sqlite_items::at;
use std::marker::Model;
use tptp_base::STerm;

/// Terms that are elements. A formula lends them, and each is made where it is asked for.
#[derive(Drop)]
pub struct Arguments<'a> {
    terms: &'a [STerm],
}

impl<'a> Model for Arguments<'a> {
    ghost use Rattle.std.specs.Prelude.{◌≡◌, List, is_some, true};
    ghost use Rattle.fi_model.specs.declared.sentence.Element.{Element};

    ghost Value = { List Element };

    ghost use Rattle.fi_model.specs.Sentences.{elements, or_none};

    ghost view = { λ it. or_none (elements it.terms.now) };

    ghost invariant = { λ it. is_some (elements it.terms.now) ≡ true };
}

impl<'a> Arguments<'a> {
    // The elements that terms are, where each is one.
    pub(crate) fn new(terms: &'a [STerm]) -> Option<Arguments<'a>>
        ensures { result ≡ spec.elements terms.now }
    {
        for term in terms {
            let Some(_) = element(term) else {
                return None;
            };
        }
        Some(Arguments { terms })
    }

    /// How many there are.
    pub fn len(&self) -> usize
        ensures { result ≡ length self.now }
    {
        self.terms.len()
    }

    /// The element at a place.
    pub fn get(&self, place: usize) -> Option<Element<'a>>
        ensures { result ≡ slice_get self.now place }
    {
        match at(self.terms, place) {
            Some(term) => element(term),
            None => None,
        }
    }
}
