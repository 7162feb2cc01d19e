//! The versions of texts.

ghost use Rattle.std.specs.Prelude.{◌≡◌};
ghost use Rattle.rp_codec.specs.Version.{version_of};

/// Which version a text is of, which its first byte says. Texts of both are read, and those of
/// version 2 are written. The text of a value has one length in both.
#[derive(Clone, Copy, PartialEq, Eq)]
pub enum Version {
    /// An entry's index is 0, which means entry 1. A value with another entry has no such text.
    V1,
    /// An entry's index is 1 to 4.
    V2,
}

impl Version {
    /// The version of this first byte, if it is one.
    #[inline(always)]
    pub(crate) fn of(number: u8) -> Option<Self>
        ensures { result ≡ version_of number }
    {
        match number {
            1 => Some(Version::V1),
            2 => Some(Version::V2),
            _ => None,
        }
    }
}
