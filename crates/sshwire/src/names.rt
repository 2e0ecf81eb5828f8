//! The names of a list one by one.

ghost use Rattle.std.specs.Prelude.{◌≡◌};
ghost use Rattle.std.specs.Iterator.{YieldsFirstBy, item_count};
ghost use Rattle.sshwire.specs.Names.{names_left};

use crate::name_list::NameList;

/// The names of a list, in order; of `NameList::names`. Takes no memory.
#[derive(Debug, Drop)]
pub struct Names<'a> {
    list: &'a NameList,
    /// How many names were given.
    given: usize,
}

impl<'a> Names<'a> {
    /// All names of a list.
    pub(crate) fn new(list: &'a NameList) -> Names<'a>
        ensures { names_left result ≡ list.now }
    {
        Names { list, given: 0 }
    }
}

impl<'a> Iterator for Names<'a> {
    type Item = &'a str;

    ghost next_gives = { YieldsFirstBy (λ name. name.now) names_left };

    ghost remaining = { item_count names_left };

    fn next(&mut self) -> Option<&'a str> {
        if self.given >= self.list.len() {
            return None;
        }
        let name = self.list.name_at(self.given)?;
        self.given += 1;
        Some(name)
    }
}
