//! `Names`, the arguments of a command that aren't options.
ghost use Rattle.std.specs.Prelude.{◌≡◌, ◌≤◌};

/// At most 8 names in the order of the arguments. Eight are enough for every row of the table.
#[derive(Clone, Copy)]
pub struct Names<'a> {
    texts: [&'a str; 8],
    count: usize,
    ghost within: { count ≤ 8 },
}

impl<'a> Names<'a> {
    ghost use Rattle.std.specs.Prelude.{◌≡◌, ◌<◌, ◌∷◌, [], ◌++◌, length, map, get_or};
    ghost use Rattle.cli_words.specs.Names.{texts_of};

    /// No name.
    pub(crate) fn new() -> Names<'a>
        ensures { texts_of result ≡ [] }
    {
        Names {
            texts: [""; 8],
            count: 0,
        }
    }

    /// The number of names.
    pub fn count(&self) -> usize
        ensures { result ≡ length (texts_of self.now) }
    {
        self.count
    }

    /// Adds a name at the end.
    pub(crate) fn push(&mut self, name: &'a str)
        requires { length (texts_of self.old) < 8 }
        ensures { texts_of self.new ≡ texts_of self.old ++ name.now ∷ [] }
    {
        self.texts[self.count] = name;
        self.count += 1;
    }

    /// The names as a slice.
    pub fn as_slice(&self) -> &[&'a str]
        ensures names { map (λ text. text.now) result.now ≡ texts_of self.now }
        ensures within { length result.now ≤ 8 }
    {
        &self.texts[..self.count]
    }

    /// The name at a place, empty where there is none.
    pub fn at(&self, place: usize) -> &'a str
        ensures { result.now ≡ get_or (texts_of self.now) place [] }
    {
        match self.as_slice().get(place) {
            Some(name) => *name,
            None => "",
        }
    }
}
