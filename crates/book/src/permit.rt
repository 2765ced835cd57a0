ghost use Rattle.std.specs.Prelude.{◌≡◌, true};

/// The right to put one link of a book back into service. Withdrawing a link makes one, and nothing else does. It is ended only by
/// giving it back, striking it or annulling it: code that lets one fall is refused, since dropping it asks that it was spent.
/// (Annul or strike it.) Code that gives one back twice is refused as well, since a call takes it. (Withdraw the link again.)
// Kept: a plain token with a flag that its `Drop` requires set is the form that is prescribed.
#[derive(Debug)]
pub struct Permit {
    pub(crate) book: u32,
    pub(crate) link: u32,
    pub(crate) spent: bool,
}

impl Drop for Permit {
    fn drop(self)
        requires { self.spent ≡ true }
    {
        let Permit {
            book: _,
            link: _,
            spent: _,
        } = self;
    }
}

impl Permit {
    /// The number of the book that it is of.
    pub fn book(&self) -> u32
        ensures { result ≡ self.now.book }
    {
        self.book
    }

    /// The number of the link that it is for.
    pub fn link(&self) -> u32
        ensures { result ≡ self.now.link }
    {
        self.link
    }
}
