ghost use Rattle.std.specs.Prelude.{◌≡◌};
ghost use Rattle.ci_pages.specs.Tables.{is_held, is_unused};
ghost use Rattle.ci_pages.specs.Uses.{is_free};

/// What a page is for.
#[derive(Clone, Copy, Debug)]
pub enum PageUse {
    /// It has the volume's head or a slot.
    Head,
    Free,
    /// It was given out since the last commit.
    Reserved,
    /// It is in a run that was written since the last commit.
    Used,
    /// It is in a chain of the current generation.
    Held,
    /// It is in a chain of the current generation that the next doesn't name.
    Leaving,
}

impl PageUse {
    pub fn is_free(self) -> bool
        ensures { result ≡ is_free self }
    {
        match self {
            PageUse::Free => true,
            PageUse::Head | PageUse::Reserved | PageUse::Used | PageUse::Held | PageUse::Leaving =>
                false,
        }
    }

    pub fn is_unused(self) -> bool
        ensures { result ≡ is_unused self }
    {
        match self {
            PageUse::Reserved => true,
            PageUse::Head | PageUse::Free | PageUse::Used | PageUse::Held | PageUse::Leaving =>
                false,
        }
    }

    pub fn is_held(self) -> bool
        ensures { result ≡ is_held self }
    {
        match self {
            PageUse::Held => true,
            PageUse::Head | PageUse::Free | PageUse::Reserved | PageUse::Used | PageUse::Leaving =>
                false,
        }
    }
}
