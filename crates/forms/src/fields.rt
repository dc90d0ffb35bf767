ghost use Rattle.std.specs.Prelude.{◌≡◌, List, length};
ghost use Rattle.std.specs.Iterator.{at_most};
ghost use Rattle.forms.specs.Cuts.{split};
ghost use Rattle.forms.specs.Fields.{Bytes, key_of, fields_of, Next};

use crate::cuts::cut;
use std::marker::Model;

// The key of a line: exactly one byte.
pub fn key(line: &[u8]) -> Option<u8>
    ensures { result ≡ key_of (split 9 line.now) }
{
    match cut(line, b'\t') {
        ([k], _) => Some(*k),
        _ => None,
    }
}

// The fields of a line that are still to come.
#[derive(Drop)]
pub struct Fields<'a> {
    rest: Option<&'a [u8]>,
}

impl<'a> Model for Fields<'a> {
    ghost Value = { List Bytes };

    ghost view = { λ fields. fields_of fields.rest };
}

impl<'a> Fields<'a> {
    pub fn of(line: &'a [u8]) -> Fields<'a>
        ensures { result ≡ split 9 line.now }
    {
        Fields { rest: Some(line) }
    }
}

impl<'a> Iterator for Fields<'a> {
    type Item = &'a [u8];

    ghost remaining = { λ fields. at_most (length fields) };

    ghost next_gives = { λ before field after. Next before field after };

    fn next(&mut self) -> Option<&'a [u8]> {
        let (field, later) = cut(self.rest?, b'\t');
        self.rest = later;
        Some(field)
    }
}
